//! Builds that are driven through random lists of fetches and turns publish the rows of the plain replay, within the bound on
//! their turns.

use crate::records::record;
use crate::row_lists::to_lines;
use generation_book::book::Book;
use repost_worker::revalued_book::RevaluedBook;
use std::alloc::Global;
use stock_keeper::keeper::Keeper;
use stock_model::faults::PostFault;
use stock_nums::numbers::RecordNo;

/// What each journal begins with: an item of each method, three warehouses, and in records 6 to 9 what later lines name.
const FIRST: [&str; 9] = [
    r#"{"do":"item","code":"A","method":"average"}"#,
    r#"{"do":"item","code":"F","method":"fifo"}"#,
    r#"{"do":"store","code":"W1","account":100}"#,
    r#"{"do":"store","code":"W2","account":200}"#,
    r#"{"do":"store","code":"W3","account":210}"#,
    r#"{"do":"receipt","at":"2026-01-05T09:00:00","lines":[{"item":"A","store":"W1","qty":30,"amount":3001},{"item":"F","store":"W1","qty":30,"amount":2999}]}"#,
    r#"{"do":"receipt","at":"2026-01-06T09:00:00","lines":[{"item":"A","store":"W2","qty":7,"amount":1000},{"item":"F","store":"W2","qty":11,"amount":50}]}"#,
    r#"{"do":"issue","at":"2026-01-10T09:00:00","use":"sold","lines":[{"item":"A","store":"W1","qty":7},{"item":"F","store":"W1","qty":7}]}"#,
    r#"{"do":"issue","at":"2026-01-11T09:00:00","use":"sold","lines":[{"item":"F","store":"W2","qty":5}]}"#,
];

/// Lines of every kind, late ones among them and some at the same moments. Which of them a book refuses depends on those before.
const LINES: [&str; 52] = [
    r#"{"do":"item","code":"C","method":"fifo"}"#,
    r#"{"do":"store","code":"W4","account":300}"#,
    r#"{"do":"receipt","at":"2026-01-01T08:00:00","lines":[{"item":"A","store":"W1","qty":3,"amount":1000}]}"#,
    r#"{"do":"receipt","at":"2026-01-01T09:00:00","lines":[{"item":"F","store":"W1","qty":4,"amount":100}]}"#,
    r#"{"do":"receipt","at":"2026-01-04T09:00:00","lines":[{"item":"F","store":"W2","qty":13,"amount":1300},{"item":"A","store":"W2","qty":3,"amount":100}]}"#,
    r#"{"do":"receipt","at":"2026-01-05T09:00:00","lines":[{"item":"F","store":"W1","qty":6,"amount":7},{"item":"F","store":"W1","qty":1,"amount":500}]}"#,
    r#"{"do":"receipt","at":"2026-01-08T09:00:00","lines":[{"item":"A","store":"W1","qty":12,"amount":0}]}"#,
    r#"{"do":"receipt","at":"2026-01-10T09:00:00","lines":[{"item":"A","store":"W2","qty":1,"amount":999},{"item":"C","store":"W2","qty":9,"amount":90}]}"#,
    r#"{"do":"receipt","at":"2026-01-12T09:00:00","lines":[{"item":"C","store":"W1","qty":5,"amount":333}]}"#,
    r#"{"do":"receipt","at":"2026-01-03T09:00:00","lines":[{"item":"F","store":"W3","qty":8,"amount":640}]}"#,
    r#"{"do":"issue","at":"2026-01-05T09:00:00","use":"sold","lines":[{"item":"A","store":"W1","qty":2}]}"#,
    r#"{"do":"issue","at":"2026-01-07T09:00:00","use":"sold","lines":[{"item":"A","store":"W2","qty":3},{"item":"F","store":"W2","qty":2}]}"#,
    r#"{"do":"issue","at":"2026-01-08T09:00:00","use":"used","lines":[{"item":"F","store":"W1","qty":6}]}"#,
    r#"{"do":"issue","at":"2026-01-10T09:00:00","use":"sold","lines":[{"item":"F","store":"W1","qty":3}]}"#,
    r#"{"do":"issue","at":"2026-01-10T09:00:00","use":"used","lines":[{"item":"A","store":"W1","qty":1},{"item":"A","store":"W1","qty":4}]}"#,
    r#"{"do":"issue","at":"2026-01-13T09:00:00","use":"sold","lines":[{"item":"C","store":"W1","qty":2}]}"#,
    r#"{"do":"issue","at":"2026-01-15T09:00:00","use":"sold","lines":[{"item":"A","store":"W1","qty":11}]}"#,
    r#"{"do":"issue","at":"2026-01-16T09:00:00","use":"sold","lines":[{"item":"F","store":"W2","qty":9}]}"#,
    r#"{"do":"issue","at":"2026-01-17T09:00:00","use":"used","lines":[{"item":"F","store":"W3","qty":4}]}"#,
    r#"{"do":"transfer","at":"2026-01-06T10:00:00","lines":[{"item":"F","from":"W1","to":"W2","qty":7},{"item":"A","from":"W1","to":"W2","qty":4}]}"#,
    r#"{"do":"transfer","at":"2026-01-07T09:00:00","lines":[{"item":"A","from":"W2","to":"W1","qty":2}]}"#,
    r#"{"do":"transfer","at":"2026-01-09T09:00:00","lines":[{"item":"F","from":"W2","to":"W1","qty":3}]}"#,
    r#"{"do":"transfer","at":"2026-01-09T09:00:00","lines":[{"item":"F","from":"W1","to":"W3","qty":5}]}"#,
    r#"{"do":"transfer","at":"2026-01-14T09:00:00","lines":[{"item":"A","from":"W1","to":"W4","qty":3}]}"#,
    r#"{"do":"transfer","at":"2026-01-14T09:00:00","lines":[{"item":"F","from":"W3","to":"W1","qty":2}]}"#,
    r#"{"do":"customer-return","at":"2026-01-10T09:00:00","lines":[{"record":8,"line":1,"store":"W1","qty":2}]}"#,
    r#"{"do":"customer-return","at":"2026-01-12T09:00:00","lines":[{"record":8,"line":2,"store":"W2","qty":3},{"record":8,"line":1,"store":"W2","qty":1}]}"#,
    r#"{"do":"customer-return","at":"2026-01-11T09:00:00","lines":[{"record":8,"line":1,"store":"W1","qty":1}]}"#,
    r#"{"do":"customer-return","at":"2026-01-10T10:00:00","lines":[{"record":8,"line":2,"store":"W1","qty":1}]}"#,
    r#"{"do":"customer-return","at":"2026-01-18T09:00:00","lines":[{"record":9,"line":1,"store":"W1","qty":1}]}"#,
    r#"{"do":"customer-return","at":"2026-01-18T09:00:00","lines":[{"record":11,"line":1,"store":"W1","qty":1}]}"#,
    r#"{"do":"customer-return","at":"2026-01-19T09:00:00","lines":[{"record":14,"line":1,"store":"W2","qty":2}]}"#,
    r#"{"do":"supplier-return","at":"2026-01-06T09:00:00","lines":[{"record":6,"line":1,"store":"W1","qty":5}]}"#,
    r#"{"do":"supplier-return","at":"2026-01-09T09:00:00","lines":[{"record":7,"line":2,"store":"W2","qty":2},{"record":6,"line":2,"store":"W1","qty":1}]}"#,
    r#"{"do":"supplier-return","at":"2026-01-17T09:00:00","lines":[{"record":6,"line":2,"store":"W2","qty":4}]}"#,
    r#"{"do":"supplier-return","at":"2026-01-18T09:00:00","lines":[{"record":12,"line":1,"store":"W1","qty":1}]}"#,
    r#"{"do":"landed","charge":101,"basis":"qty","targets":[{"record":6,"line":1},{"record":6,"line":2}]}"#,
    r#"{"do":"landed","charge":77,"basis":"amount","targets":[{"record":7,"line":2},{"record":6,"line":2}]}"#,
    r#"{"do":"landed","charge":13,"basis":"qty","targets":[{"record":7,"line":1}]}"#,
    r#"{"do":"landed","charge":1000,"basis":"amount","targets":[{"record":10,"line":1}]}"#,
    r#"{"do":"landed","charge":50,"basis":"qty","targets":[{"record":13,"line":1},{"record":6,"line":1}]}"#,
    r#"{"do":"landed","charge":7,"basis":"amount","targets":[{"record":15,"line":1}]}"#,
    r#"{"do":"cancel","record":6}"#,
    r#"{"do":"cancel","record":7}"#,
    r#"{"do":"cancel","record":8}"#,
    r#"{"do":"cancel","record":9}"#,
    r#"{"do":"cancel","record":10}"#,
    r#"{"do":"cancel","record":11}"#,
    r#"{"do":"cancel","record":13}"#,
    r#"{"do":"cancel","record":14}"#,
    r#"{"do":"cancel","record":16}"#,
    r#"{"do":"cancel","record":19}"#,
];

/// What was counted of the runs so far.
#[derive(Clone, Copy)]
struct Counts {
    accepted: u64,
    movements: u64,
    /// Movements that were taken back.
    gone: u64,
    turns: u64,
    published: u64,
    /// Movements that the records of the last run ever made.
    made: u64,
    /// Turns after the last line of the last run, and how many are enough.
    last: u64,
    bound: u64,
    /// Answers and publications that are not those of a book that is replayed.
    wrong: u64,
}

const NOTHING: Counts = Counts {
    accepted: 0,
    movements: 0,
    gone: 0,
    turns: 0,
    published: 0,
    made: 0,
    last: 0,
    bound: 0,
    wrong: 0,
};

/// What a book says to a record.
type Answer = Result<RecordNo, PostFault>;

/// One number more where this is so.
fn counted(number: u64, so: bool) -> u64 {
    if so { number.saturating_add(1) } else { number }
}

/// The answer of a book to the line.
fn answer<K: Keeper>(alloc: Global, book: &mut Book<K>, line: &str) -> Option<Answer> {
    let record = record(alloc, line).ok()?;
    Some(book.post(alloc, record))
}

/// The same of a book that is revalued.
fn answer_of_revalued<K: Keeper>(
    alloc: Global,
    book: &mut RevaluedBook<K>,
    line: &str,
) -> Option<Answer> {
    let record = record(alloc, line).ok()?;
    Some(book.post(alloc, record))
}

/// Posts the line to both books, and compares their answers.
fn post<K: Keeper, P: Keeper>(
    alloc: Global,
    revalued: &mut RevaluedBook<K>,
    plain: &mut Book<P>,
    counts: &mut Counts,
    line: &str,
) {
    let before = plain.accepted();
    let one = answer_of_revalued(alloc, revalued, line);
    let other = answer(alloc, plain, line);
    let are_alike = one.is_some() && one == other;
    counts.wrong = counted(counts.wrong, !are_alike);
    counts.made = counts.made.saturating_add(made(alloc, plain, before));
    counts.last = 0;
}

/// How many movements the records after the first ones make; 0 where memory is wanting.
fn made<K: Keeper>(alloc: Global, book: &Book<K>, after: RecordNo) -> u64 {
    if after.0 > book.accepted().0 {
        return 0;
    }
    match book.fetch(alloc, after) {
        Ok(fetched) => fetched.entries.len() as u64,
        Err(_) => 0,
    }
}

/// Posts a copy of the record with this number, where there is one. Says whether it is accepted.
fn is_posted<K: Keeper, P: Keeper>(
    alloc: Global,
    plain: &mut Book<P>,
    book: &Book<K>,
    number: RecordNo,
) -> bool {
    let Some(record) = book.at(number) else {
        return false;
    };
    match record.copy(alloc) {
        Ok(copy) => plain.post(alloc, copy).is_ok(),
        Err(_) => false,
    }
}

/// Posts copies of the covered records of one book to another. Says whether all are accepted.
fn are_posted<K: Keeper, P: Keeper>(alloc: Global, plain: &mut Book<P>, book: &Book<K>) -> bool {
    for index in 0..book.covered().0 {
        if !is_posted(alloc, plain, book, RecordNo(index + 1)) {
            return false;
        }
    }
    true
}

/// Whether the generation is the plain replay of the records that it covers.
fn is_replay<K: Keeper>(alloc: Global, book: &Book<K>) -> bool {
    let mut plain = Book::start(alloc);
    are_posted(alloc, &mut plain, book) && are_rows_of(alloc, book, &plain)
}

/// Whether the generation of the one book is the plain replay of the other one.
fn are_rows_of<K: Keeper, P: Keeper>(alloc: Global, book: &Book<K>, plain: &Book<P>) -> bool {
    match (plain.replayed(alloc), to_lines(alloc, book.rows())) {
        (Ok(replay), Ok(rows)) => rows.as_slice() == replay.as_slice(),
        _ => false,
    }
}

/// How many movements the book has; 0 where memory is wanting.
fn movements<K: Keeper>(alloc: Global, book: &Book<K>) -> u64 {
    match book.replayed(alloc) {
        Ok(replay) => replay.len() as u64,
        Err(_) => 0,
    }
}

/// Makes a turn, and says whether it published.
fn publishes<K: Keeper>(alloc: Global, book: &mut RevaluedBook<K>) -> bool {
    let before = book.book().covered();
    book.work(alloc, Some(1)).covered != before
}

/// Makes a turn, and compares what it publishes.
fn turn<K: Keeper>(alloc: Global, revalued: &mut RevaluedBook<K>, counts: &mut Counts) {
    counts.turns = counted(counts.turns, true);
    counts.last = counted(counts.last, true);
    if publishes(alloc, revalued) {
        let is_replay = is_replay(alloc, revalued.book());
        counts.wrong = counted(counts.wrong, !is_replay);
        counts.published = counted(counts.published, true);
    }
}

fn is_behind<K: Keeper>(book: &Book<K>) -> bool {
    book.covered() < book.accepted()
}

/// At most so many turns, until all is covered.
fn turns<K: Keeper>(alloc: Global, revalued: &mut RevaluedBook<K>, counts: &mut Counts, most: u64) {
    for _ in 0..most {
        if is_behind(revalued.book()) {
            turn(alloc, revalued, counts);
        }
    }
}

/// Makes the turns that are left, as many as are enough, and compares with the plain book.
fn finish<K: Keeper, P: Keeper>(
    alloc: Global,
    revalued: &mut RevaluedBook<K>,
    plain: &Book<P>,
    counts: &mut Counts,
) {
    counts.accepted = counts
        .accepted
        .saturating_add(u64::from(plain.accepted().0));
    counts.movements = counts.movements.saturating_add(counts.made);
    let gone = counts.made.saturating_sub(movements(alloc, plain));
    counts.gone = counts.gone.saturating_add(gone);
    counts.bound = counts.made.saturating_mul(2).saturating_add(4);
    turns(alloc, revalued, counts, counts.bound);
    let book = revalued.book();
    let is_done = are_rows_of(alloc, book, plain) && !is_behind(book);
    counts.wrong = counted(counts.wrong, !is_done);
}

/// The next of numbers in no order.
fn next(number: u32) -> u32 {
    number.wrapping_mul(1_664_525).wrapping_add(1_013_904_223)
}

/// Posts what every journal begins with.
fn begin<K: Keeper, P: Keeper>(
    alloc: Global,
    revalued: &mut RevaluedBook<K>,
    plain: &mut Book<P>,
    counts: &mut Counts,
) {
    for line in FIRST {
        post(alloc, revalued, plain, counts, line);
    }
}

/// Posts 25 random lines, with turns between them.
fn go_on<K: Keeper, P: Keeper>(
    alloc: Global,
    revalued: &mut RevaluedBook<K>,
    plain: &mut Book<P>,
    counts: &mut Counts,
    seed: u32,
) {
    let mut number = seed;
    for _ in 0..25 {
        number = next(number);
        let line = LINES[(number >> 16) as usize % 52];
        post(alloc, revalued, plain, counts, line);
        number = next(number);
        turns(alloc, revalued, counts, u64::from(number >> 16) % 6);
    }
}

/// Posts to two new books, and counts on.
fn run(alloc: Global, seed: u32, counts: &mut Counts) {
    let mut revalued = RevaluedBook::start(alloc);
    let mut plain = Book::start(alloc);
    counts.made = 0;
    begin(alloc, &mut revalued, &mut plain, counts);
    go_on(alloc, &mut revalued, &mut plain, counts, seed);
    finish(alloc, &mut revalued, &plain, counts);
}

#[test]
fn builds_publish_the_plain_replay(rt: HostRuntime) {
    let mut counts = NOTHING;
    for seed in 0..200 {
        run(rt.alloc(), seed, &mut counts);
        assert!(rt; counts.wrong == 0, "at seed {seed}");
        assert!(rt; counts.last <= counts.bound, "at seed {seed}");
    }
    assert!(rt; counts.accepted == 4_957);
    assert!(rt; counts.movements > 1_400 && counts.turns > counts.movements);
    assert!(rt; counts.gone > 500);
    assert!(rt; counts.published >= 200);
}
