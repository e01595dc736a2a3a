//! The weights by which a charge is parted over lines of receipts.
ghost use Rattle.std.specs.Prelude.{◌≡◌, nat_lt, sum};
ghost use Rattle.stock_model.specs.Faults.{has_no_basis};
ghost use Rattle.stock_model.specs.LandedCost.{line_weight, weight, weights};
ghost use Rattle.stock_model.specs.LineViews.{seen};

use crate::line_views::landed_target;
use crate::names::Names;
use crate::seen::LineView;
use crate::target_lines::target_line;
use crate::vouchers::{Basis, What};
use stock_nums::cause::Target;

/// Whether the voucher is a charge that has no weight by which it could be parted.
pub(crate) fn has_no_basis<N: Names>(names: &N, what: &What) -> bool
    ensures { result ≡ has_no_basis (N.journal names.now) what.now }
{
    match what {
        What::Landed {
            charge: _,
            basis,
            targets,
        } => !has_weight(names, *basis, targets.as_slice()),
        _ => false,
    }
}

// Whether one of the targets has a weight.
fn has_weight<N: Names>(names: &N, basis: Basis, targets: &[Target]) -> bool
    ensures { result ≡ nat_lt 0 (sum (weights (N.journal names.now) basis targets.now)) }
{
    for target in targets {
        if weight(names, basis, target) > 0 {
            return true;
        }
    }
    false
}

/// The weight of a line of a receipt by this basis: its units from 1 to 10^9, or its amount from 0 to 10^12. 0 where
/// the journal has no such line.
pub fn weight<N: Names>(names: &N, basis: Basis, target: &Target) -> u64
    ensures { result ≡ weight (N.journal names.now) basis target.now }
{
    match target_line(names, landed_target(target)) {
        Some(line) => line_weight(basis, &line),
        None => 0,
    }
}

fn line_weight(basis: Basis, line: &LineView<'_>) -> u64
    ensures { result ≡ line_weight basis (seen line.now) }
{
    match basis {
        Basis::Quantity => line.qty.0,
        Basis::Amount => line.amount.0.unsigned_abs(),
    }
}
