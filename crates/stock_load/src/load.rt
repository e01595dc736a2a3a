//! A load: a script of many vouchers, answered over a new book, of which the sums alone are told.
ghost use Rattle.std.specs.Prelude.{◌≡◌, ◌≤◌, ℕ, List, ◌++◌, IfOk, OnOk, string_bytes};
ghost use Rattle.stock_io.specs.Counts.{NeverFalls};
ghost use Rattle.repost_worker.specs.Paces.{first_pace};
ghost use Rattle.stock_batch.specs.Batches.{HasTaken, TakesMore};
ghost use Rattle.load_script.specs.LoadScript.{opening_lines, voucher_line, work_line, last_lines};
ghost use Rattle.stock_load.specs.Loads.{whole_balance, summary_text, LeadsBy, Leads, IsSummaryOf, IsLoaded};
ghost use Rattle.stock_words.specs.declared.words.TheConstants.{MAX_LOAD};

use generation_book::book::Book;
use load_script::lines::{first_receipt, head_lines, last_lines, voucher_line, work_line};
use repost_worker::revalued_book::RevaluedBook;
use std::alloc::Global;
use stock_batch::batch::Batch;
use stock_ends::end::End;
use stock_io::sink::{Sink, write_all};
use stock_keeper::nowhere::Nowhere;
use stock_model::queries::{Format, Query, Sheet};
use stock_nums::memory::NoMemory;
use stock_nums::numbers::RecordNo;
use valuation_report::balance_sums::balance_sums;

/// Answers the script of so many vouchers over a new book that is kept nowhere, and writes what the balance sums to then.
pub fn load<O: Sink>(alloc: Global, count: u32, output: &mut O) -> End
    requires { count ≤ MAX_LOAD }
    ensures loaded { IsLoaded O.written O.faults output.old output.new count result }
    ensures never_falls { NeverFalls (O.faults output.old) (O.faults output.new) }
{
    let Ok(text) = summary_of_load(alloc, count) else {
        return End::NoMemory;
    };
    match write_all(output, text.as_bytes()) {
        Ok(()) => End::Done,
        Err(_) => End::WriteFailed,
    }
}

fn summary_of_load(alloc: Global, count: u32) -> Result<String, NoMemory>
    requires { count ≤ MAX_LOAD }
    ensures { IfOk result (λ text. IsSummaryOf count (string_bytes text)) }
{
    let book = answer_script(alloc, count)?;
    summary_text(alloc, book.book())
}

/// The book after the script.
fn answer_script(alloc: Global, count: u32) -> Result<RevaluedBook<Nowhere>, NoMemory>
    requires { count ≤ MAX_LOAD }
    ensures { IfOk result (Leads count) }
{
    let mut batch = opened(alloc, count)?;
    for done in 0..count {
        take_voucher(alloc, &mut batch, done + 1)?;
    }
    take_end(alloc, &mut batch)?;
    Ok(batch.into_book())
}

/// A batch after what comes before the vouchers.
fn opened(alloc: Global, count: u32) -> Result<Batch<Nowhere>, NoMemory>
    requires { count ≤ MAX_LOAD }
    ensures { IfOk result (λ batch. HasTaken first_pace batch (opening_lines count)) }
{
    let receipt = first_receipt(alloc, count)?;
    let mut batch = Batch::new(alloc, RevaluedBook::start(alloc));
    take_lines(alloc, &mut batch, head_lines())?;
    take_lines(alloc, &mut batch, receipt.as_str())?;
    Ok(batch)
}

/// Answers the voucher with this number, and what comes after it.
fn take_voucher(alloc: Global, batch: &mut Batch<Nowhere>, number: u32) -> Result<(), NoMemory>
    requires { number ≤ MAX_LOAD }
    ensures { OnOk result (TakesMore batch.old (voucher_line number ++ work_line number) batch.new) }
{
    let voucher = voucher_line(alloc, number)?;
    take_lines(alloc, batch, voucher.as_str())?;
    take_lines(alloc, batch, work_line(number))
}

/// Answers what comes after the vouchers, and takes the end of the script.
fn take_end(alloc: Global, batch: &mut Batch<Nowhere>) -> Result<(), NoMemory>
    ensures { OnOk result ((taken : List ℕ) → HasTaken first_pace batch.old taken → LeadsBy (taken ++ last_lines) batch.new.book) }
{
    take_lines(alloc, batch, last_lines())?;
    batch.end_input(alloc)
}

/// Answers these lines, and drops the replies.
fn take_lines(alloc: Global, batch: &mut Batch<Nowhere>, lines: &str) -> Result<(), NoMemory>
    ensures { OnOk result (TakesMore batch.old lines.now batch.new) }
{
    batch.feed(alloc, lines.as_bytes())?;
    batch.drop_replies();
    Ok(())
}

/// The line that tells how many records are covered and accepted, and what the balance sums to.
fn summary_text(alloc: Global, book: &Book<Nowhere>) -> Result<String, NoMemory>
    ensures { IfOk result (λ text. string_bytes text ≡ summary_text book.now.history) }
{
    let query = whole_balance();
    let Ok(selected) = book.select(&query) else {
        return Err(NoMemory);
    };
    let sums = balance_sums(alloc, &selected, &query)?;
    let (covered, records) = (book.covered().0, book.accepted().0);
    let (stock, worth) = (sums.stock, sums.worth);
    let text = format!(in alloc;
        "{{\"covered\":{covered},\"records\":{records},\"stock\":{stock},\"worth\":{worth}}}\n"
    )?;
    Ok(text)
}

/// The balance of all items and all warehouses at all moments.
fn whole_balance() -> Query
    ensures { result ≡ whole_balance }
{
    Query {
        sheet: Sheet::Balance,
        need: RecordNo(0),
        until: None,
        item: None,
        store: None,
        format: Format::Json,
    }
}
