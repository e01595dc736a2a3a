//! Sums over a slice.
ghost use Rattle.std.specs.Prelude.{◌≡◌, ◌≤◌, ◌+◌, ◌*◌, ◌^◌, ◌+ℤ◌, ◌≤ℤ◌, ℕ, max, unsigned_abs, length, take};
ghost use Rattle.block_list.specs.Sums.{total};
ghost use Rattle.block_list.specs.declared.sums.TheConstants.{MOST};

use crate::weigh::Weigh;

/// The most items that a block takes.
pub(crate) const MOST: usize = 128;

/// Half of them.
pub(crate) const HALF: usize = MOST / 2;

/// How many blocks make a group; the last group may have fewer.
pub(crate) const GROUP: usize = 32;

/// What some items count together, and the least of what fronts of them do.
#[derive(Clone, Copy)]
pub(crate) struct Sums {
    pub(crate) sum: i64,
    pub(crate) low: i64,
}

impl Sums {
    /// The sums with one item more.
    fn with<T, W: Weigh<T>>(self, item: &T) -> Sums
        requires { unsigned_abs self.sum ≤ 2 ^ 50 }
        ensures sum { result.sum ≡ self.sum +ℤ W.weight item.now }
        ensures low { (result.low ≤ℤ self.low) × (result.low ≤ℤ result.sum) }
        ensures bound { (n : ℕ) → unsigned_abs self.sum ≤ n * 2 ^ 40 → unsigned_abs self.low ≤ n * 2 ^ 40 → (unsigned_abs result.sum ≤ (n + 1) * 2 ^ 40) × (unsigned_abs result.low ≤ (n + 1) * 2 ^ 40) }
    {
        let sum = self.sum + W::weight(item);
        if sum < self.low {
            Sums { sum, low: sum }
        } else {
            Sums { sum, low: self.low }
        }
    }

    /// The sums of these items and those that come after them.
    pub(crate) fn followed_by(self, next: Sums) -> Sums
        requires sum { unsigned_abs self.sum ≤ 2 ^ 61 }
        requires next_sum { unsigned_abs next.sum ≤ 2 ^ 61 }
        requires next_low { unsigned_abs next.low ≤ 2 ^ 61 }
        ensures sum { result.sum ≡ self.sum +ℤ next.sum }
        ensures low { (result.low ≤ℤ self.low) × (result.low ≤ℤ (self.sum +ℤ next.low)) }
        ensures bound { unsigned_abs result.low
            ≤ max (unsigned_abs self.low) (unsigned_abs self.sum + unsigned_abs next.low) }
    {
        let low = self.sum + next.low;
        Sums {
            sum: self.sum + next.sum,
            low: low.min(self.low),
        }
    }
}

/// The sums of a slice.
pub(crate) fn measure<T, W: Weigh<T>>(items: &[T]) -> Sums
    requires { length items.now ≤ MOST }
    ensures sum { result.sum ≡ total W.weight items.now }
    ensures low { (k : ℕ) → result.low ≤ℤ total W.weight (take k items.now) }
    ensures bound { (unsigned_abs result.sum ≤ length items.now * 2 ^ 40) × (unsigned_abs result.low ≤ length items.now * 2 ^ 40) }
{
    let mut found = Sums { sum: 0, low: 0 };
    for item in items {
        found = found.with::<T, W>(item);
    }
    found
}
