//! A book from its records to what its reports are made from.
ghost use Rattle.std.specs.Prelude.{◌≡◌, map, IfOk};
ghost use Rattle.repost_fetch.specs.Changes.{spot_of_entry};

use crate::records::{ITEM, RECEIPT, SALE, STORE, record};
use crate::row_lists::{in_a_block, to_lines};
use generation_book::book::Book;
use shared_list::list::SharedList;
use std::alloc::Global;
use stock_keeper::fault::KeepFault;
use stock_keeper::keeper::Keeper;
use stock_keeper::nowhere::Nowhere;
use stock_model::queries::{Format, Need, Query, Selected, Sheet};
use stock_model::read_faults::ReadFault;
use stock_nums::code::Code;
use stock_nums::entry::{Entry, Row};
use stock_nums::lines::Lines;
use stock_nums::memory::NoMemory;
use stock_nums::numbers::RecordNo;
use stock_nums::place::Spot;

// Five units of B into W1, 100 each, on the day before the other receipt.
const LATE: &str =
    r#"{"do":"receipt","at":"2026-01-01T00:00:00","lines":[{"item":"B","store":"W1","qty":5,"amount":500}]}"#;

// The sale is taken back.
const CANCEL: &str = r#"{"do":"cancel","record":4}"#;

// The number that the line's record gets; none where it is refused.
fn post<K: Keeper>(
    alloc: Global,
    book: &mut Book<K>,
    line: &str,
) -> Result<Option<u32>, ReadFault> {
    match book.post(alloc, record(alloc, line)?) {
        Ok(number) => Ok(Some(number.0)),
        Err(_) => Ok(None),
    }
}

// Publishes all accepted records, where some are not covered, with each row as one that changed.
fn publish_all(alloc: Global, book: &mut Book<Nowhere>) -> Result<RecordNo, KeepFault> {
    let accepted = book.accepted();
    let covered = book.covered();
    if covered.0 >= accepted.0 {
        return Ok(accepted);
    }
    let replayed = book.replayed(alloc)?;
    let block = SharedList::of(alloc, replayed)?;
    let rows = in_a_block(alloc, &block)?;
    let fetched = book.fetch(alloc, covered)?;
    let gone = spots(alloc, fetched.gone.as_slice())?;
    let changed = block.as_slice();
    book.publish(alloc, accepted, &rows, changed, gone.as_slice())?;
    Ok(accepted)
}

// Where the movements stand among those of their records.
fn spots(alloc: Global, entries: &[Entry]) -> Result<Lines<Spot>, NoMemory>
    ensures { IfOk result (λ spots. spots ≡ map spot_of_entry entries.now) }
{
    let mut spots = Lines::new(alloc);
    for entry in entries {
        spots.push(spot_of(entry))?;
    }
    Ok(spots)
}

fn spot_of(entry: &Entry) -> Spot
    ensures { result ≡ spot_of_entry entry.now }
{
    Spot {
        voucher: entry.place.voucher,
        line: entry.place.line,
        side: entry.place.side,
    }
}

// How many movements the records after the first ones bring, and how many records there are with them.
fn fetched<K: Keeper>(alloc: Global, book: &Book<K>, after: u32) -> Option<(usize, RecordNo)> {
    if after > book.accepted().0 {
        return None;
    }
    let fetched = book.fetch(alloc, RecordNo(after)).ok()?;
    Some((fetched.entries.len(), fetched.upto))
}

// The balances of B, after records up to this one.
fn balances(alloc: Global, need: u32) -> Result<Query, NoMemory> {
    Ok(Query {
        sheet: Sheet::Balance,
        need: RecordNo(need),
        until: None,
        item: Some(Code::of(alloc, "B")?),
        store: None,
        format: Format::Json,
    })
}

fn need<K: Keeper>(alloc: Global, book: &Book<K>, wanted: u32) -> Result<Need, NoMemory> {
    Ok(book.test(&balances(alloc, wanted)?))
}

fn selected<K: Keeper>(alloc: Global, book: &Book<K>, wanted: u32) -> Option<Selected> {
    let query = balances(alloc, wanted).ok()?;
    book.select(&query).ok()
}

// Lines, and the numbers that their records get. The second item has the code of the first.
const POSTED: &[(&str, Option<u32>)] = &[
    (ITEM, Some(1)),
    (ITEM, None),
    (STORE, Some(2)),
    (RECEIPT, Some(3)),
    (SALE, Some(4)),
];

// Whether the records of the lines get these numbers.
fn are_posted<K: Keeper>(alloc: Global, book: &mut Book<K>) -> bool {
    for (line, number) in POSTED {
        if post(alloc, book, line) != Ok(*number) {
            return false;
        }
    }
    true
}

// Whether a book has then published the four records, and has a fifth, which is the receipt of the day before.
fn has_late(alloc: Global, book: &mut Book<Nowhere>) -> bool {
    are_posted(alloc, book)
        && publish_all(alloc, book) == Ok(RecordNo(4))
        && post(alloc, book, LATE) == Ok(Some(5))
}

// Whether a report that needs so many records is told so.
fn is_needed<K: Keeper>(alloc: Global, book: &Book<K>, wanted: u32, told: Need) -> bool {
    need(alloc, book, wanted) == Ok(told)
}

// Whether the fifth record waits, and is fetched.
fn waits<K: Keeper>(alloc: Global, book: &Book<K>) -> bool {
    let pending = Need::Pending {
        covered: RecordNo(4),
        wanted: RecordNo(5),
    };
    let none = Need::NoSuchRecord {
        accepted: RecordNo(5),
        wanted: RecordNo(6),
    };
    is_needed(alloc, book, 4, Need::Ready)
        && is_needed(alloc, book, 5, pending)
        && is_needed(alloc, book, 6, none)
        && fetched(alloc, book, 4) == Some((1, RecordNo(5)))
}

// How many records a report covers, and of how many movements, items and warehouses it is made.
type Sizes = (RecordNo, usize, usize);

fn sizes(chosen: &Selected) -> Sizes {
    let mut rows: usize = 0;
    for _ in chosen.rows.items() {
        rows = rows.saturating_add(1);
    }
    (chosen.covered, rows, chosen.heads.len())
}

// The record of each movement, and its value.
fn told(rows: &[Row]) -> Option<[(u32, i64); 3]> {
    match rows {
        [a, b, c] => Some([a, b, c].map(|row| (row.entry.place.voucher.0, row.worth.value.0))),
        _ => None,
    }
}

// What a report is made from once all is published.
fn published_and_selected(alloc: Global, book: &mut Book<Nowhere>) -> Option<Selected> {
    publish_all(alloc, book).ok()?;
    selected(alloc, book, 5)
}

// What reports are made from before all is published and after it, where the first is held meanwhile.
fn report_twice(
    alloc: Global,
    book: &mut Book<Nowhere>,
) -> Option<(Sizes, Sizes, Option<[(u32, i64); 3]>)> {
    let before = selected(alloc, book, 4)?;
    let after = published_and_selected(alloc, book)?;
    let rows = to_lines(alloc, &after.rows).ok()?;
    Some((sizes(&before), sizes(&after), told(rows.as_slice())))
}

// Whether the receipt of the day before is in the next report.
fn is_in_next_report(alloc: Global, book: &mut Book<Nowhere>) -> bool {
    let reports = (
        (RecordNo(4), 2, 2),
        (RecordNo(5), 3, 2),
        Some([(5, 500), (3, 1000), (4, 100)]),
    );
    report_twice(alloc, book) == Some(reports)
}

// The record of each movement, and its value, where a sale was taken back.
fn told_without_sale(rows: &[Row]) -> Option<[(u32, i64); 2]> {
    match rows {
        [a, b] => Some([a, b].map(|row| (row.entry.place.voucher.0, row.worth.value.0))),
        _ => None,
    }
}

// What a report is made from once all six records are published.
fn report_without_sale<K: Keeper>(
    alloc: Global,
    book: &Book<K>,
) -> Option<(Sizes, Option<[(u32, i64); 2]>)> {
    let chosen = selected(alloc, book, 6)?;
    let rows = to_lines(alloc, &chosen.rows).ok()?;
    Some((sizes(&chosen), told_without_sale(rows.as_slice())))
}

// Whether the sale is taken back, but not once more, and the next report is made without it.
fn is_taken_back(alloc: Global, book: &mut Book<Nowhere>) -> bool {
    let report = ((RecordNo(6), 2, 2), Some([(5, 500), (3, 1000)]));
    post(alloc, book, CANCEL) == Ok(Some(6))
        && post(alloc, book, CANCEL) == Ok(None)
        && publish_all(alloc, book) == Ok(RecordNo(6))
        && report_without_sale(alloc, book) == Some(report)
}

// What is seen of a new book.
#[derive(Clone, Copy)]
enum Scene {
    HasLate,
    Waits,
    Reports,
    TakesBack,
}

// Whether it is so. Here alone a book is owned: a function that drops one takes long to prove.
fn is_seen(alloc: Global, scene: Scene) -> bool {
    let mut book = Book::start(alloc);
    let has_late = has_late(alloc, &mut book);
    match scene {
        Scene::HasLate => has_late,
        Scene::Waits => has_late && waits(alloc, &book),
        Scene::Reports => has_late && is_in_next_report(alloc, &mut book),
        Scene::TakesBack => has_late && is_taken_back(alloc, &mut book),
    }
}

#[test]
fn records_are_posted_and_published(rt: HostRuntime) {
    assert!(rt; is_seen(rt.alloc(), Scene::HasLate));
}

#[test]
fn a_late_receipt_waits(rt: HostRuntime) {
    assert!(rt; is_seen(rt.alloc(), Scene::Waits));
}

#[test]
fn a_receipt_of_the_day_before_is_in_the_next_report(rt: HostRuntime) {
    assert!(rt; is_seen(rt.alloc(), Scene::Reports));
}

#[test]
fn a_sale_that_is_taken_back_is_in_no_further_report(rt: HostRuntime) {
    assert!(rt; is_seen(rt.alloc(), Scene::TakesBack));
}
