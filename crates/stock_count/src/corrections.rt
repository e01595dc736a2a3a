//! The lines that correct a ledger to a count.
ghost use Rattle.std.specs.Prelude.{◌≡◌, ◌++◌, [], ◌∷◌, true, false, pos, int_lt, map, OnOk, IfOk};
ghost use Rattle.std.specs.Option.{option_to_list};
ghost use Rattle.stock_count.specs.Corrections.{correction, issue_said, receipt_said, shortage, surplus};
ghost use Rattle.stock_count.specs.Differences.{is_wide};
ghost use Rattle.stock_count.specs.Plans.{IsIssue, IsReceipt};

use crate::plan::CountPlan;
use std::alloc::Global;
use stock_model::vouchers::{IssueLine, Purpose, ReceiptLine, What};
use stock_nums::lines::Lines;
use stock_nums::memory::NoMemory;
use stock_nums::moment::Moment;
use stock_nums::numbers::{Minor, Qty};
use voucher_import::sheet::CountLine;

/// The differences of a count's first lines, and the lines of vouchers that make up for them.
#[derive(Drop)]
pub(crate) struct Corrections {
    pub diffs: Lines<i64>,
    pub shortages: Lines<IssueLine>,
    pub surpluses: Lines<ReceiptLine>,
}

impl Corrections {
    /// None yet. It takes no memory.
    pub fn new(alloc: Global) -> Corrections
        ensures diffs { result.diffs ≡ [] }
        ensures shortages { result.shortages ≡ [] }
        ensures surpluses { result.surpluses ≡ [] }
    {
        Corrections {
            diffs: Lines::new(alloc),
            shortages: Lines::new(alloc),
            surpluses: Lines::new(alloc),
        }
    }

    /// Takes one more line of the count into account, with its difference.
    pub fn add(&mut self, alloc: Global, line: &CountLine, diff: i64) -> Result<(), NoMemory>
        requires { is_wide diff ≡ false }
        ensures diffs { OnOk result (self.new.diffs ≡ self.old.diffs ++ diff ∷ []) }
        ensures shortages { OnOk result (map issue_said self.new.shortages ≡ map issue_said self.old.shortages ++ option_to_list (shortage line.now diff)) }
        ensures surpluses { OnOk result (map receipt_said self.new.surpluses ≡ map receipt_said self.old.surpluses ++ option_to_list (surplus line.now diff)) }
    {
        self.diffs.push(diff)?;
        if diff < 0 {
            self.shortages.push(shortage_line(alloc, line, diff)?)?;
        }
        if diff > 0 {
            self.surpluses.push(surplus_line(alloc, line, diff)?)?;
        }
        Ok(())
    }

    /// What comes of the count at this moment.
    pub fn into_plan(self, at: Moment) -> CountPlan
        ensures diffs { result.diffs ≡ self.diffs }
        ensures issue { IsIssue at (map issue_said self.shortages) result.issue }
        ensures receipt { IsReceipt at (map receipt_said self.surpluses) result.receipt }
    {
        CountPlan {
            diffs: self.diffs,
            issue: issue_of(at, self.shortages),
            receipt: receipt_of(at, self.surpluses),
        }
    }
}

// The line of an issue that makes up for missing units.
fn shortage_line(alloc: Global, line: &CountLine, diff: i64) -> Result<IssueLine, NoMemory>
    requires narrow { is_wide diff ≡ false }
    requires missing { int_lt diff (pos 0) ≡ true }
    ensures { IfOk result (λ made. issue_said made ≡ correction line.now diff) }
{
    Ok(IssueLine {
        item: line.item.copy(alloc)?,
        store: line.store.copy(alloc)?,
        qty: Qty(diff.unsigned_abs()),
    })
}

// The line of a receipt that makes up for units that there are too many, for nothing.
fn surplus_line(alloc: Global, line: &CountLine, diff: i64) -> Result<ReceiptLine, NoMemory>
    requires narrow { is_wide diff ≡ false }
    requires more { int_lt (pos 0) diff ≡ true }
    ensures { IfOk result (λ made. receipt_said made ≡ correction line.now diff) }
{
    Ok(ReceiptLine {
        item: line.item.copy(alloc)?,
        store: line.store.copy(alloc)?,
        qty: Qty(diff.unsigned_abs()),
        amount: Minor(0),
    })
}

// The issue of what is missing, which the firm used.
fn issue_of(at: Moment, lines: Lines<IssueLine>) -> Option<What>
    ensures { IsIssue at (map issue_said lines) result }
{
    if lines.is_empty() {
        return None;
    }
    Some(What::Issue {
        at,
        purpose: Purpose::Used,
        lines,
    })
}

// The receipt of what there is too much.
fn receipt_of(at: Moment, lines: Lines<ReceiptLine>) -> Option<What>
    ensures { IsReceipt at (map receipt_said lines) result }
{
    if lines.is_empty() {
        return None;
    }
    Some(What::Receipt { at, lines })
}
