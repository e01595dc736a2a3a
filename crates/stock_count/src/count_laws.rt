//! What posting the plan of a count does.
ghost use Rattle.std.specs.Prelude.{List, ◌++◌, All};
ghost use Rattle.stock_model.specs.declared.records.Record.{Record};
ghost use Rattle.stock_model.specs.Journals.{AreLegal};
ghost use Rattle.stock_count.specs.declared.plan.CountPlan.{CountPlan};
ghost use Rattle.stock_count.specs.Plans.{IsPlan};
ghost use Rattle.stock_count.specs.Posted.{ArePosted, IsHeldAsCounted};
ghost use Rattle.voucher_import.specs.declared.sheet.CountSheet.{CountSheet};

/// Where a journal with the vouchers of a count's plan after it is legal, each warehouse held at the count's moment, by all
/// vouchers in force, what was counted.
pub fn what_was_counted_is_held()
    ensures { (journal : List Record) (sheet : CountSheet) (plan : CountPlan) (issues receipts : List Record) → IsPlan journal sheet plan
        → ArePosted plan.issue issues → ArePosted plan.receipt receipts → AreLegal (journal ++ issues ++ receipts)
        → All (IsHeldAsCounted (journal ++ issues ++ receipts) sheet.at) sheet.lines }
{}
