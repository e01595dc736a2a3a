//! What reports are made from: the valued movements of the first records.
ghost use Rattle.std.specs.Prelude.{◌≡◌, length, IfOk};
ghost use Rattle.stock_model.specs.Reports.{IsSelected};
ghost use Rattle.mirrored_sessions.specs.Steps.{selected_of};
ghost use Rattle.report_mirror.specs.Generations.{IsGeneration};

use crate::record_blocks::RecordBlocks;
use report_selection::until::rows_until;
use shared_list::blocks::SharedBlocks;
use shared_list::list::SharedList;
use std::marker::Model;
use stock_model::queries::{Query, Selected};
use stock_nums::entry::Row;
use stock_nums::head::Head;
use stock_nums::memory::NoMemory;
use stock_nums::numbers::RecordNo;

/// The covered records, with the rows of their replay and their items and warehouses. Contracts see the records, by which all the rest
/// is given.
#[derive(Drop)]
pub struct Generation {
    covered: RecordNo,
    records: RecordBlocks,
    rows: SharedBlocks<Row>,
    heads: SharedList<Head>,
}

impl Model for Generation {
    ghost use Rattle.std.specs.Prelude.{List};
    ghost use Rattle.stock_model.specs.declared.records.Record.{Record};
    ghost use Rattle.report_mirror.specs.Generations.{IsGeneration};

    ghost Value = { List Record };

    ghost view = { λ generation. generation.records };

    ghost invariant = { λ generation. IsGeneration generation.covered.0 generation.records generation.rows generation.heads };
}

impl Generation {
    /// What reports are made from where these records are covered.
    pub fn new(
        covered: RecordNo,
        records: RecordBlocks,
        rows: SharedBlocks<Row>,
        heads: SharedList<Head>,
    ) -> Generation
        requires { IsGeneration covered.0 records rows heads }
        ensures { result ≡ records }
    {
        Generation {
            covered,
            records,
            rows,
            heads,
        }
    }

    /// How many records are covered.
    pub fn covered(&self) -> RecordNo
        ensures { result.0 ≡ length self.now }
    {
        self.covered
    }

    /// The covered records, in blocks.
    pub fn records(&self) -> &RecordBlocks
        ensures { result.now ≡ self.now }
    {
        &self.records
    }

    /// What the query's report is made from. It holds the generation's own rows, items and warehouses, and copies of none.
    ///
    /// # Errors
    ///
    /// `NoMemory`: 2^63 hold the generation already.
    pub fn select(&self, query: &Query) -> Result<Selected, NoMemory>
        ensures selected { IfOk result (λ chosen. chosen ≡ selected_of self.now query.now) }
        ensures of_book { IfOk result (IsSelected query.now) }
    {
        Ok(Selected {
            covered: self.covered,
            rows: rows_until(&self.rows, query.until)?,
            heads: self.heads.share()?,
        })
    }
}
