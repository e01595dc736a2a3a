//! A ledger is opened again from each of the tables that a crash may leave, and a book counts the calls of its keeper.

use crate::records::{ITEM, RECEIPT, SALE, STORE, record};
use repost_worker::opening::NotOpened;
use repost_worker::revalued_book::RevaluedBook;
use std::alloc::Global;
use stock_keeper::keeper::Keeper;
use stock_keeper::memory_keeper::MemKeeper;
use stock_keeper::memory_shelf::MemShelf;
use stock_keeper::shelf::Shelf;
use stock_keeper::tables::{Tables, VERSION};
use stock_model::records::Record;
use stock_nums::lines::Lines;
use stock_nums::memory::NoMemory;

// How many records a ledger has, and how many of them it covers.
type Shape = (u32, u32);

// Before the sale and dearer than the other receipt, so that a worth changes which was published.
const DEARER: &str =
    r#"{"do":"receipt","at":"2026-01-01T00:00:00","lines":[{"item":"B","store":"W1","qty":10,"amount":2000}]}"#;

// What is posted step by step, and worked where there is no line. Each step is one call of the keeper, unless there is nothing to
// publish; the load was the call before the first.
const STEPS: [Option<&str>; 7] = [
    Some(ITEM),
    Some(STORE),
    Some(RECEIPT),
    Some(SALE),
    None,
    Some(DEARER),
    None,
];

fn post<K: Keeper>(alloc: Global, book: &mut RevaluedBook<K>, record: Record) {
    let _ = book.post(alloc, record);
}

fn work<K: Keeper>(alloc: Global, book: &mut RevaluedBook<K>) {
    let _ = book.work(alloc, None);
}

// Takes a step, and says whether it could be read.
fn step<K: Keeper>(alloc: Global, book: &mut RevaluedBook<K>, line: &str) -> bool {
    match record(alloc, line) {
        Ok(record) => {
            post(alloc, book, record);
            true
        }
        Err(_) => false,
    }
}

fn take_steps<K: Keeper>(alloc: Global, book: &mut RevaluedBook<K>, steps: usize) -> bool {
    let mut are_read = true;
    for taken in STEPS.iter().take(steps) {
        match taken {
            Some(line) => are_read = step(alloc, book, line) && are_read,
            None => work(alloc, book),
        }
    }
    are_read
}

fn shape<K: Keeper>(book: &RevaluedBook<K>) -> Shape {
    let book = book.book();
    (book.accepted().0, book.covered().0)
}

fn into_keeper<K: Keeper>(book: RevaluedBook<K>) -> K {
    book.into_book().into_keeper()
}

// Opens the ledger of the shelf, takes the first steps over it, and puts its keeper back. Answers what it has then, and how many
// calls the book counts; or none where it was not opened.
fn run<H: Shelf>(alloc: Global, shelf: &mut H, steps: usize) -> Option<(Shape, u64)> {
    let keeper = shelf.open_keeper("ledger").ok()?;
    match RevaluedBook::begin(alloc, keeper) {
        Ok(mut book) => {
            let are_read = take_steps(alloc, &mut book, steps);
            let told = (shape(&book), book.book().calls());
            shelf.put_back(into_keeper(book));
            if are_read { Some(told) } else { None }
        }
        Err(NotOpened { fault: _, keeper }) => {
            shelf.put_back(keeper);
            None
        }
    }
}

// A new keeper, of whose calls these fail.
fn new_keeper(alloc: Global, failing: &[u64]) -> Result<MemKeeper, NoMemory> {
    let tables = Tables {
        version: VERSION,
        records: Lines::new(alloc),
        covered: 0,
        worths: Lines::new(alloc),
    };
    let failing = Lines::from_vec(failing.to_vec(alloc)?);
    Ok(MemKeeper::of(alloc, tables, failing))
}

// The keeper of a new ledger after so many steps, of whose calls these fail.
fn kept_after(alloc: Global, failing: &[u64], steps: usize) -> Option<MemKeeper> {
    let keeper = new_keeper(alloc, failing).ok()?;
    let mut shelf = MemShelf::new(keeper, Lines::new(alloc));
    let _ = run(alloc, &mut shelf, steps);
    shelf.into_kept()
}

// What a ledger has that is opened from the tables which a crash leaves.
fn opened_after_crash(alloc: Global, keeper: MemKeeper, pick: usize) -> Option<Shape> {
    let left = keeper.crash(pick).ok()?;
    let mut shelf = MemShelf::new(left, Lines::new(alloc));
    let (shape, _calls) = run(alloc, &mut shelf, 0)?;
    Some(shape)
}

// Which calls of a new ledger's keeper fail, and how many steps are taken; what the ledgers have that the refused calls would have
// made, in order, and what the one has that is kept.
type Crash = (&'static [u64], usize, &'static [Shape], Shape);

// Whether a ledger opens from the tables with this index that the crash may leave.
fn opens_from(alloc: Global, crash: Crash, pick: usize) -> bool {
    let (failing, steps, tried, kept) = crash;
    let Some(keeper) = kept_after(alloc, failing, steps) else {
        return false;
    };
    let is_as_planned = keeper.faults() == failing.len() as u64 && keeper.images() == tried.len();
    let wanted = tried.get(pick).copied().unwrap_or(kept);
    is_as_planned && opened_after_crash(alloc, keeper, pick) == Some(wanted)
}

// Whether a ledger opens from each of the tables that it may leave.
fn opens_from_all(alloc: Global, crash: Crash) -> bool {
    for pick in 0..=crash.2.len() {
        if !opens_from(alloc, crash, pick) {
            return false;
        }
    }
    true
}

const CRASHES: &[Crash] = &[
    (&[], 7, &[], (5, 5)),
    // the load, each post and each publication
    (&[1], 0, &[], (0, 0)),
    (&[2], 1, &[(1, 0)], (0, 0)),
    (&[3], 2, &[(2, 0)], (1, 0)),
    (&[4], 3, &[(3, 0)], (2, 0)),
    (&[5], 4, &[(4, 0)], (3, 0)),
    (&[6], 5, &[(4, 4)], (4, 0)),
    (&[7], 6, &[(5, 4)], (4, 4)),
    (&[8], 7, &[(5, 5)], (5, 4)),
    // a publication and the post after it, and then a publication that is done
    (&[6, 7], 6, &[(4, 4), (5, 0)], (4, 0)),
    (&[6, 7], 7, &[], (4, 4)),
    // a post, and then a publication that is done, or nothing to publish
    (&[5], 5, &[], (3, 3)),
    (&[7], 7, &[(5, 4)], (4, 4)),
];

#[test]
fn a_ledger_opens_from_all_that_a_crash_leaves(rt: HostRuntime) {
    for crash in CRASHES {
        assert!(rt;
            opens_from_all(rt.alloc(), *crash),
            "after {} steps",
            crash.1
        );
    }
}

// Whether the book of a new ledger counts so many calls after so many steps, where the call with number 6 fails.
fn counts(alloc: Global, steps: usize, calls: u64) -> bool {
    match new_keeper(alloc, &[6]) {
        Ok(keeper) => {
            let mut shelf = MemShelf::new(keeper, Lines::new(alloc));
            matches!(run(alloc, &mut shelf, steps), Some((_, counted)) if counted == calls)
        }
        Err(NoMemory) => false,
    }
}

// How many calls there were after so many steps: the load, four posts, a publication that fails, a post and a publication.
const CALLS: &[(usize, u64)] = &[(0, 1), (4, 5), (5, 6), (6, 7), (7, 8)];

#[test]
fn a_book_counts_the_calls_of_its_keeper(rt: HostRuntime) {
    for (steps, calls) in CALLS {
        assert!(rt; counts(rt.alloc(), *steps, *calls), "after {steps} steps");
    }
}
