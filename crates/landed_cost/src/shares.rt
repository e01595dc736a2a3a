ghost use Rattle.std.specs.Prelude.{◌≡◌, ◌<◌, ◌≤◌, ◌↔◌, ℕ, List, sum, unsigned_abs, IsTrue, IfOk, IsErrOf};
ghost use Rattle.stock_nums.specs.Quantities.{is_line_amount};
ghost use Rattle.stock_nums.specs.Shares.{shares};
ghost use Rattle.stock_nums.specs.declared.limits.TheConstants.{MAX_UNITS};
ghost use Rattle.landed_cost.specs.Charges.{minors};

use std::alloc::Global;
use stock_nums::lines::Lines;
use stock_nums::memory::NoMemory;
use stock_nums::numbers::{Minor, Qty};
use stock_nums::part::part;

/// Why a charge is not parted.
#[derive(Clone, Copy, Debug, PartialEq, Eq)]
pub enum ShareFault {
    /// The weights are all 0, so that there is nothing to part the charge by.
    NoBasis,
    /// Memory was wanting.
    NoMemory,
}

/// The shares of a charge from 0 to 10^12 minor units by these weights, in their order (IAS 2.10 and 11). The
/// weights are at most 10^18 together. Each share is the difference of two shares of the whole, rounded down,
/// so that they add up to the charge. Where all weights are 0, which takes no memory to see, there is no basis.
pub fn shares(alloc: Global, charge: Minor, weights: &[u64]) -> Result<Lines<Minor>, ShareFault>
    requires charge { IsTrue (is_line_amount charge.0) }
    requires weights { sum weights.now ≤ MAX_UNITS }
    ensures parted { IfOk result (λ parted. parted ≡ minors (shares (unsigned_abs charge.0) weights.now)) }
    ensures no_basis { IsErrOf result ShareFault.NoBasis ↔ (sum weights.now ≡ 0) }
{
    let all = total(weights);
    if all == 0 {
        return Err(ShareFault::NoBasis);
    }
    match parted(alloc, charge, weights, Qty(all)) {
        Ok(parted) => Ok(parted),
        Err(_) => Err(ShareFault::NoMemory),
    }
}

/// The shares of a total add up to it, where one of the weights is not 0.
pub fn shares_add_up()
    ensures { (total : ℕ) (weights : List ℕ) → 0 < sum weights → sum (shares total weights) ≡ total }
{}

// All weights together.
fn total(weights: &[u64]) -> u64
    requires { sum weights.now ≤ MAX_UNITS }
    ensures { result ≡ sum weights.now }
{
    weights.iter().sum()
}

// The shares by weights that have this sum.
fn parted(alloc: Global, charge: Minor, weights: &[u64], all: Qty) -> Result<Lines<Minor>, NoMemory>
    requires charge { IsTrue (is_line_amount charge.0) }
    requires some { 0 < all.0 }
    requires all { all.0 ≡ sum weights.now }
    requires units { all.0 ≤ MAX_UNITS }
    ensures { IfOk result (λ parted. parted ≡ minors (shares (unsigned_abs charge.0) weights.now)) }
{
    let mut parted = Lines::new(alloc);
    let mut before = 0;
    for weight in weights {
        let share = part(charge, Qty(before), Qty(*weight), all);
        parted.push(share)?;
        before += *weight;
    }
    Ok(parted)
}
