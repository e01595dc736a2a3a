//! What comes of a count of stock.

use stock_model::vouchers::What;
use stock_nums::lines::Lines;
use stock_nums::memory::NoMemory;

/// How a count differs from the ledger, and the vouchers that correct the ledger. Each of them has from 1 to 100 lines.
#[derive(Drop)]
pub struct CountPlan {
    /// For each line what was counted less what was held.
    pub diffs: Lines<i64>,
    /// The issue of all that is missing. None where nothing is.
    pub issue: Option<What>,
    /// The receipt, for nothing, of all that there is too much. None where there is not.
    pub receipt: Option<What>,
}

/// Why no plan comes of a count.
#[derive(Clone, Copy, Debug, PartialEq, Eq)]
pub enum CountFault {
    /// The line, from 1, is the first whose difference is above 10^9 in size, so that no line of a voucher can make up for it.
    Wide { line: u32 },
    /// Memory was wanting. This can come at any time.
    NoMemory,
}

impl From<NoMemory> for CountFault {
    ghost use Rattle.std.specs.Prelude.{◌≡◌};
    ghost use Rattle.stock_count.specs.declared.plan.CountFault.TheVariants as fault;

    ghost from_gives = { λ _ made. made ≡ fault.NoMemory };

    fn from(_error: NoMemory) -> CountFault {
        CountFault::NoMemory
    }
}
