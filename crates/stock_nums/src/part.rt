ghost use Rattle.std.specs.Prelude.{◌≡◌, ◌+◌, ◌*◌, ◌/◌, ◌<◌, ◌≤◌, ℕ, pos, ◌≤ℤ◌, unsigned_abs};
ghost use Rattle.stock_nums.specs.Part.{part};

use crate::limits::{MAX_UNITS, MAX_VALUE};
use crate::numbers::{Minor, Qty};

/// What the units taken have of a total that is spread over the whole, after those before them, in minor
/// units. It is the difference of two shares of the whole, each rounded down, so that parts that follow
/// one another add up to the total.
pub fn part(total: Minor, before: Qty, take: Qty, whole: Qty) -> Minor
    requires from_zero { pos 0 ≤ℤ total.0 }
    requires worth { total.0 ≤ℤ pos MAX_VALUE }
    requires some { 0 < whole.0 }
    requires units { whole.0 ≤ MAX_UNITS }
    requires within { before.0 + take.0 ≤ whole.0 }
    ensures share { result.0 ≡ pos (part (unsigned_abs total.0) before.0 take.0 whole.0) }
    ensures bounds { (pos 0 ≤ℤ result.0) × (result.0 ≤ℤ total.0) }
{
    let total = total.0.unsigned_abs();
    let to_the_end = share(total, before.0 + take.0, whole.0);
    let to_the_start = share(total, before.0, whole.0);
    Minor((to_the_end - to_the_start) as i64)
}

/// All units have the total, parts that follow one another add up, and none has more than the total.
pub fn parts_add_up()
    ensures whole { (T W : ℕ) → 0 < W → part T 0 W W ≡ T }
    ensures split { (T b q r W : ℕ) → 0 < W → b + q + r ≤ W → part T b q W + part T (b + q) r W ≡ part T b (q + r) W }
    ensures within { (T b q W : ℕ) → b + q ≤ W → part T b q W ≤ T }
{}

// What the first units have, rounded down.
fn share(total: u64, first: u64, whole: u64) -> u64
    requires worth { total ≤ MAX_VALUE }
    requires some { 0 < whole }
    requires units { whole ≤ MAX_UNITS }
    requires within { first ≤ whole }
    ensures share { result ≡ total * first / whole }
    ensures bound { result ≤ total }
{
    (u128::from(total) * u128::from(first) / u128::from(whole)) as u64
}
