//! The chronological replay in one pass: each movement valued in posting order.
ghost use Rattle.std.specs.Prelude.{◌≡◌, IfOk};
ghost use Rattle.stock_model.specs.Bounds.{AreBounded};
ghost use Rattle.stock_model.specs.Journals.{AreLegal};
ghost use Rattle.stock_model.specs.PostingOrder.{posting_line};
ghost use Rattle.stock_model.specs.Replay.{replay};

use crate::charges::Charges;
use crate::replayed::Replayed;
use std::alloc::Global;
use stock_model::records::Record;
use stock_nums::entry::{Entry, Row};
use stock_nums::lines::Lines;
use stock_nums::memory::NoMemory;

/// The movements of a legal journal in posting order, each valued from those before it. What a movement takes over is
/// found in tables, so that n movements take time in proportion to n times the logarithm of n.
pub fn rows_of(alloc: Global, records: &[Record], line: &[Entry]) -> Result<Lines<Row>, NoMemory>
    requires legal { AreLegal records.now }
    requires line { line.now ≡ posting_line records.now }
    ensures rows { IfOk result (λ rows. rows ≡ replay records.now) }

    // The stock of each item in each warehouse is never worth less than nothing, and values are in range.
    ensures bounded { AreBounded (replay records.now) }
{
    let charges = Charges::new(alloc, records)?;
    let mut replayed = Replayed::new(alloc);
    for entry in line {
        replayed = replayed.with(alloc, &charges, entry)?;
    }
    Ok(replayed.into_rows())
}
