ghost use Rattle.std.specs.Prelude.{◌≡◌, ◌+◌, ◌<◌, ◌≤◌, pos, ◌+ℤ◌, ◌≤ℤ◌, unsigned_abs};
ghost use Rattle.stock_nums.specs.HalfUp.{half_up};

use stock_nums::half_up::half_up;
use stock_nums::numbers::{Minor, Qty};

/// The units held of one item in one warehouse, valued at their moving average (IAS 2.27).
#[derive(Clone, Copy, Debug, PartialEq, Eq)]
pub struct Average {
    /// At most 10^18.
    pub qty: Qty,
    /// What all the units are worth together, from 0 to 3 * 10^17. No units are worth 0.
    pub value: Minor,
    ghost units: { qty.0 ≤ 1_000_000_000_000_000_000 },
    ghost worth: { (pos 0 ≤ℤ value.0) × (value.0 ≤ℤ pos 300_000_000_000_000_000) },
    ghost nothing: { qty.0 ≡ 0 → value.0 ≡ pos 0 },
}

impl Average {
    /// Nothing held.
    pub fn new() -> Average
        ensures units { result.qty.0 ≡ 0 }
        ensures value { result.value.0 ≡ pos 0 }
    {
        Average {
            qty: Qty(0),
            value: Minor(0),
        }
    }

    /// Adds units that are worth this together.
    pub fn add(&mut self, qty: Qty, value: Minor)
        requires some { 0 < qty.0 }
        requires worth { pos 0 ≤ℤ value.0 }
        requires units_fit { self.old.qty.0 + qty.0 ≤ 1_000_000_000_000_000_000 }
        requires value_fits { (self.old.value.0 +ℤ value.0) ≤ℤ pos 300_000_000_000_000_000 }
        ensures units { self.new.qty.0 ≡ self.old.qty.0 + qty.0 }
        ensures value { self.new.value.0 ≡ (self.old.value.0 +ℤ value.0) }
    {
        *self = Average {
            qty: Qty(self.qty.0 + qty.0),
            value: Minor(self.value.0 + value.0),
        };
    }

    /// Takes units at the average cost of those held, and tells what they cost together. The last
    /// units take all the value that is left.
    pub fn take(&mut self, qty: Qty) -> Minor
        requires some { 0 < qty.0 }
        requires held { qty.0 ≤ self.old.qty.0 }
        ensures cost { result.0 ≡ pos (half_up (unsigned_abs self.old.value.0) qty.0 self.old.qty.0) }
        ensures units { self.new.qty.0 + qty.0 ≡ self.old.qty.0 }
        ensures value { (self.new.value.0 +ℤ result.0) ≡ self.old.value.0 }
        ensures last { qty.0 ≡ self.old.qty.0 → (result.0 ≡ self.old.value.0) × (self.new.value.0 ≡ pos 0) }
    {
        let cost = half_up(self.value, qty, self.qty);
        *self = Average {
            qty: Qty(self.qty.0 - qty.0),
            value: Minor(self.value.0 - cost.0),
        };
        cost
    }
}
