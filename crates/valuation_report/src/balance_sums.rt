//! What the rows of a balance sum to.
ghost use Rattle.std.specs.Prelude.{◌≡◌, IfOk};
ghost use Rattle.stock_model.specs.Books.{CanBeShown};
ghost use Rattle.stock_model.specs.Reports.{IsSelected};
ghost use Rattle.stock_model.specs.Sheets.{balance};
ghost use Rattle.stock_model.specs.declared.queries.Sheet.TheVariants.{Balance};
ghost use Rattle.valuation_report.specs.BalanceSums.{sums_of};

use crate::balance_sheet::holdings_by_key;
use crate::holdings::Holding;
use std::alloc::Global;
use stock_laws::selected_laws::all_can_be_shown;
use stock_model::queries::{Query, Selected};
use stock_nums::memory::NoMemory;

/// What the rows of a balance sum to.
#[derive(Clone, Copy, Debug, PartialEq, Eq)]
pub struct BalanceSums {
    /// All quantities together, in smallest units.
    pub stock: u128,
    /// All values together, in minor units.
    pub worth: u128,
}

impl BalanceSums {
    ghost use Rattle.std.specs.Prelude.{◌≡◌, ◌+◌, ◌^◌, ◌≤◌};
    ghost use Rattle.valuation_report.specs.BalanceSums.{with_holding};

    /// Takes what is held of one more item in a warehouse into account.
    fn add(&mut self, holding: Holding)
        requires stock { self.old.stock + 2 ^ 64 ≤ 2 ^ 128 }
        requires worth { self.old.worth + 2 ^ 64 ≤ 2 ^ 128 }
        ensures added { self.new ≡ with_holding self.old holding }
        ensures stock { self.new.stock ≤ self.old.stock + 2 ^ 64 }
        ensures worth { self.new.worth ≤ self.old.worth + 2 ^ 64 }
    {
        self.stock += u128::from(holding.units());
        self.worth += u128::from(holding.value);
    }
}

/// The sums of the rows of the balance that a query asks for.
///
/// # Errors
///
/// `NoMemory`: memory was wanting.
pub fn balance_sums(
    alloc: Global,
    selected: &Selected,
    query: &Query,
) -> Result<BalanceSums, NoMemory>
    requires selected { IsSelected query.now selected.now }
    requires sheet { query.now.sheet ≡ Balance }
    ensures { IfOk result (λ sums. sums ≡ sums_of (balance query.now selected.now)) }
{
    all_can_be_shown();
    sums_of(alloc, selected, query)
}

fn sums_of(alloc: Global, selected: &Selected, query: &Query) -> Result<BalanceSums, NoMemory>
    requires { CanBeShown selected.now }
    ensures { IfOk result (λ sums. sums ≡ sums_of (balance query.now selected.now)) }
{
    let heads = selected.heads.as_slice();
    let by_key = holdings_by_key(alloc, query, heads, &selected.rows)?;
    let mut sums = BalanceSums { stock: 0, worth: 0 };
    for (_key, holding) in by_key {
        sums.add(holding);
    }
    Ok(sums)
}
