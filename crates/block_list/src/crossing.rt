//! Where a running sum first falls below 0.
ghost use Rattle.std.specs.Prelude.{◌≡◌, ◌+◌, ◌-◌, ◌*◌, ◌^◌, ◌<◌, ◌≤◌, ◌+ℤ◌, ◌≤ℤ◌, pos, IsTrue, unsigned_abs, length};
ghost use Rattle.block_list.specs.Sums.{IsFirstBelow};

use crate::sums::Sums;
use crate::weigh::Weigh;

/// A running sum that has come to an index: before the item there it is this.
#[derive(Clone, Copy, Debug, PartialEq, Eq)]
pub struct Crossing {
    pub index: usize,
    pub before: i64,
}

impl Crossing {
    /// The sum with the item at its index.
    fn with<T, W: Weigh<T>>(self, item: &T) -> Crossing
        requires few { self.index < 2 ^ 32 }
        requires bound { unsigned_abs self.before ≤ 2 ^ 61 }
        ensures index { result.index ≡ self.index + 1 }
        ensures before { result.before ≡ self.before +ℤ W.weight item.now }
        ensures bound { unsigned_abs result.before ≤ unsigned_abs self.before + 2 ^ 40 }
    {
        Crossing {
            index: self.index + 1,
            before: self.before + W::weight(item),
        }
    }

    /// Whether no front of items with these sums takes the running sum below 0.
    pub(crate) fn stays_enough(self, sums: Sums) -> bool
        requires bound { unsigned_abs self.before ≤ 2 ^ 61 }
        requires low { unsigned_abs sums.low ≤ 2 ^ 61 }
        ensures { IsTrue result → pos 0 ≤ℤ (self.before +ℤ sums.low) }
    {
        0 <= self.before + sums.low
    }

    /// The sum at this index, after items with these sums.
    pub(crate) fn past(self, index: usize, sums: Sums) -> Crossing
        requires bound { unsigned_abs self.before ≤ 2 ^ 61 }
        requires sum { unsigned_abs sums.sum ≤ 2 ^ 61 }
        ensures index { result.index ≡ index }
        ensures before { result.before ≡ self.before +ℤ sums.sum }
    {
        Crossing {
            index,
            before: self.before + sums.sum,
        }
    }
}

/// How far a running sum comes from an index before the end, without the item with which it falls below 0.
pub(crate) fn first_below<T, W: Weigh<T>>(items: &[T], start: Crossing, end: usize) -> Crossing
    requires ordered { start.index ≤ end }
    requires within { end ≤ length items.now }
    requires few { length items.now ≤ 2 ^ 20 }
    requires bound { unsigned_abs start.before + (end - start.index) * 2 ^ 40 ≤ 2 ^ 61 }
    ensures found { IsFirstBelow W.weight items.now start.index end start.before result.index result.before }
    ensures bound { unsigned_abs result.before ≤ unsigned_abs start.before + (result.index - start.index) * 2 ^ 40 }
{
    let mut at = start;
    while at.index < end {
        let next = at.with::<T, W>(&items[at.index]);
        if next.before < 0 {
            return at;
        }
        at = next;
    }
    at
}
