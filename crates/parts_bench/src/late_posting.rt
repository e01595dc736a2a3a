//! Vouchers are posted to a book.
ghost use Rattle.std.specs.Prelude.{◌≡◌, ◌∷◌, ◌++◌, [], OnOk, OnErr};
ghost use Rattle.stock_model.specs.History as history;
ghost use Rattle.repost_worker.specs.Turns.{IsWorkOf};

use crate::late_vouchers::{ITEM, LINES, OTHER, Vouchers, item, late_receipt, store};
use generation_book::book::Book;
use repost_build::build::Build;
use std::alloc::Global;
use stock_keeper::nowhere::Nowhere;
use stock_model::records::Record;
use stock_nums::cause::Method;
use stock_nums::memory::NoMemory;

// Posts a record. What is posted here has no fault, so it is refused for want of memory alone.
fn post(alloc: Global, book: &mut Book<Nowhere>, record: Record) -> Result<(), NoMemory>
    requires none { history.covered book.old.history ≡ 0 }
    ensures none { history.covered book.new.history ≡ 0 }
{
    match book.post(alloc, record) {
        Ok(_) => Ok(()),
        Err(_) => Err(NoMemory),
    }
}

/// Posts two items and a warehouse, and then so many movements of the first item in vouchers of 100 lines.
pub(crate) fn post_all(
    alloc: Global,
    book: &mut Book<Nowhere>,
    method: Method,
    count: u32,
) -> Result<(), NoMemory>
    requires none { history.covered book.old.history ≡ 0 }
    ensures none { history.covered book.new.history ≡ 0 }
{
    post(alloc, book, item(alloc, ITEM, method)?)?;
    post(alloc, book, item(alloc, OTHER, method)?)?;
    post(alloc, book, store(alloc)?)?;
    let mut vouchers = Vouchers::new();
    let mut left = count;
    while left > 0 {
        let lines = left.min(LINES);
        post(alloc, book, vouchers.next(alloc, lines)?)?;
        left -= lines;
    }
    Ok(())
}

/// Posts a receipt of the item that comes before all other vouchers.
pub(crate) fn post_late(
    alloc: Global,
    book: &mut Book<Nowhere>,
    build: &Build,
    item: &str,
) -> Result<(), NoMemory>
    requires work { IsWorkOf book.old.history build.now }
    ensures work { IsWorkOf book.new.history build.now }
{
    let record = late_receipt(alloc, item)?;
    match book.post(alloc, record) {
        Ok(_) => Ok(()),
        Err(_) => Err(NoMemory),
    }
}
