//! Worked examples of the first shortage, each a law without a premise.
ghost use Rattle.std.specs.Prelude.{◌≡◌, Some, None};
ghost use Rattle.stock_model.specs.Enough.{shortage};
ghost use Rattle.stock_model.specs.WorkedShortages.{in_and_out, one_lacking};

/// In one second a unit can leave where the receipt's record comes first, and not where the issue's does
/// or where the unit came into another warehouse.
#[tactic(auto, unfolding(crate::specs::Enough::shortage))]
pub fn same_second()
    ensures receipt_first { shortage (in_and_out 3 4 2) ≡ None }
    ensures issue_first { shortage (in_and_out 4 3 2) ≡ Some (one_lacking 3 2) }
    ensures other_store { shortage (in_and_out 3 4 5) ≡ Some (one_lacking 4 5) }
{}
