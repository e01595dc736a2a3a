//! The generation that a book covers, made from the one that a mirror shows.
ghost use Rattle.std.specs.Prelude.{◌≡◌, ◌≤◌, drop, length, None, IfOk};
ghost use Rattle.stock_model.specs.History.{covered_records};
ghost use Rattle.turn_lock.specs.Histories.{BeginsWith};

use generation_book::book::Book;
use report_mirror::generation::Generation;
use report_mirror::record_blocks::RecordBlocks;
use std::alloc::Global;
use stock_keeper::keeper::Keeper;
use stock_model::queries::{Format, Query, Sheet};
use stock_model::records::Record;
use stock_nums::memory::NoMemory;
use stock_nums::numbers::RecordNo;

/// What reports of the book are made from, for a mirror that shows nothing yet. It copies the covered records, and shares the book's own
/// rows, items and warehouses.
///
/// # Errors
///
/// `NoMemory`: memory was wanting, or 2^63 hold the rows already.
pub fn first_generation<K: Keeper>(alloc: Global, book: &Book<K>) -> Result<Generation, NoMemory>
    ensures { IfOk result (λ first. first ≡ covered_records book.now.history) }
{
    generation_past(alloc, book, &RecordBlocks::new(alloc), RecordNo(0))
}

/// The same for a mirror that shows a generation with which the book's own begins. It copies the records that are new, and shares most of
/// the others with the one that is shown.
///
/// # Errors
///
/// `NoMemory`: memory was wanting, or 2^63 hold the rows already.
pub fn next_generation<K: Keeper>(
    alloc: Global,
    book: &Book<K>,
    shown: &Generation,
) -> Result<Generation, NoMemory>
    requires { BeginsWith (covered_records book.now.history) shown.now }
    ensures { IfOk result (λ next. next ≡ covered_records book.now.history) }
{
    generation_past(alloc, book, shown.records(), shown.covered())
}

// The book's generation, of whose records the first `count` are known.
fn generation_past<K: Keeper>(
    alloc: Global,
    book: &Book<K>,
    known: &RecordBlocks,
    count: RecordNo,
) -> Result<Generation, NoMemory>
    requires begins { BeginsWith (covered_records book.now.history) known.now }
    requires count { count.0 ≡ length known.now }
    ensures { IfOk result (λ next. next ≡ covered_records book.now.history) }
{
    // It tells that the history is legal.
    let _accepted = book.accepted();
    let records = known.longer(alloc, covered_past(book, count))?;
    match book.select(&everything()) {
        Ok(whole) => Ok(Generation::new(whole.covered, records, whole.rows, whole.heads)),
        Err(_) => Err(NoMemory),
    }
}

// The covered records that come after the first `count`.
fn covered_past<K: Keeper>(book: &Book<K>, count: RecordNo) -> &[Record]
    requires { count.0 ≤ length (covered_records book.now.history) }
    ensures { result.now ≡ drop count.0 (covered_records book.now.history) }
{
    let covered = book.covered();
    let records = &book.journal().records()[..covered.0 as usize];
    &records[count.0 as usize..]
}

// A report that shows all that is covered, and needs nothing that is not.
fn everything() -> Query
    ensures { result.until ≡ None }
{
    Query {
        sheet: Sheet::Balance,
        need: RecordNo(0),
        until: None,
        item: None,
        store: None,
        format: Format::Json,
    }
}
