ghost use Rattle.std.specs.Prelude.{◌≡◌, ◌<◌, ◌≤◌, ℕ, pos, ◌≤ℤ◌, unsigned_abs};
ghost use Rattle.stock_nums.specs.HalfUp.{half_up};

use crate::limits::{MAX_UNITS, MAX_VALUE};
use crate::numbers::{Minor, Qty};

/// What the units taken of the whole cost at the moving average (IAS 2.27), in minor units rounded
/// half up. The last units cost all that is left.
pub fn half_up(value: Minor, take: Qty, whole: Qty) -> Minor
    requires from_zero { pos 0 ≤ℤ value.0 }
    requires worth { value.0 ≤ℤ pos MAX_VALUE }
    requires some { 0 < take.0 }
    requires within { take.0 ≤ whole.0 }
    requires units { whole.0 ≤ MAX_UNITS }
    ensures cost { result.0 ≡ pos (half_up (unsigned_abs value.0) take.0 whole.0) }
    ensures bounds { (pos 0 ≤ℤ result.0) × (result.0 ≤ℤ value.0) }
{
    Minor(share(value.0.unsigned_abs(), take.0, whole.0) as i64)
}

/// The last units take all, and no units cost more than all that there was.
pub fn half_up_is_within()
    ensures last { (V Q : ℕ) → half_up V Q Q ≡ V }
    ensures within { (V q Q : ℕ) → 0 < Q → q ≤ Q → half_up V q Q ≤ V }
{}

/// The same over plain numbers.
fn share(value: u64, take: u64, whole: u64) -> u64
    requires worth { value ≤ MAX_VALUE }
    requires some { 0 < take }
    requires within { take ≤ whole }
    requires units { whole ≤ MAX_UNITS }
    ensures cost { result ≡ half_up value take whole }
    ensures within { result ≤ value }
{
    if take == whole {
        return value;
    }
    let doubled = 2 * u128::from(value) * u128::from(take) + u128::from(whole);
    (doubled / (2 * u128::from(whole))) as u64
}
