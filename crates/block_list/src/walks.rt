//! Walks over blocks, with the sums of what was passed.
ghost use Rattle.std.specs.Prelude.{◌≡◌, ◌+◌, ◌-◌, ◌*◌, ◌^◌, ◌<◌, ◌≤◌, ◌+ℤ◌, ◌++◌, List, min, max, unsigned_abs, length, take};
ghost use Rattle.block_list.specs.Blocks.{joined, IsSpot};
ghost use Rattle.block_list.specs.Sums.{total, IsFirstBelow};

use crate::block::Block;
use crate::crossing::Crossing;
use crate::weigh::Weigh;

/// An item by its block, and by its index there.
#[derive(Clone, Copy)]
pub(crate) struct Spot {
    pub(crate) block: usize,
    pub(crate) index: usize,
}

/// Where the item at an index stands.
pub(crate) fn spot_of<T: Copy, W: Weigh<T>>(blocks: &[Block<T, W>], index: usize) -> Spot
    requires { index < length (joined blocks.now) }
    ensures { IsSpot blocks.now index result.block result.index }
{
    let mut at = Spot { block: 0, index };
    while at.block < blocks.len() {
        let size = blocks[at.block].len();
        if at.index < size {
            return at;
        }
        at = Spot {
            block: at.block + 1,
            index: at.index - size,
        };
    }
    at
}

/// A walk that has come to a block, with so many items left to pass, and what those that it passed count.
#[derive(Clone, Copy)]
struct Walk {
    block: usize,
    left: usize,
    sum: i64,
}

impl Walk {
    /// The walk past a block.
    fn past<T: Copy, W: Weigh<T>>(self, block: &Block<T, W>) -> Walk
        requires few { self.block + 1 < 2 ^ 64 }
        requires size { length block.now ≤ self.left }
        requires bound { unsigned_abs self.sum ≤ 2 ^ 61 }
        ensures block { result.block ≡ self.block + 1 }
        ensures left { result.left ≡ self.left - length block.now }
        ensures sum { result.sum ≡ self.sum +ℤ total W.weight block.now }
        ensures bound { unsigned_abs result.sum ≤ unsigned_abs self.sum + length block.now * 2 ^ 40 }
    {
        Walk {
            block: self.block + 1,
            left: self.left - block.len(),
            sum: self.sum + block.sum(),
        }
    }

    /// The sum with the items of the block that are left to pass.
    fn end<T: Copy, W: Weigh<T>>(self, block: &Block<T, W>) -> Walk
        requires size { self.left ≤ length block.now }
        requires bound { unsigned_abs self.sum ≤ 2 ^ 61 }
        ensures sum { result.sum ≡ self.sum +ℤ total W.weight (take self.left block.now) }
        ensures bound { unsigned_abs result.sum ≤ unsigned_abs self.sum + 2 ^ 47 }
    {
        Walk {
            block: self.block,
            left: 0,
            sum: self.sum + block.sum_before(self.left),
        }
    }
}

/// What the items before an index count together.
pub(crate) fn sum_before<T: Copy, W: Weigh<T>>(blocks: &[Block<T, W>], index: usize) -> i64
    requires within { index ≤ length (joined blocks.now) }
    requires few { length (joined blocks.now) ≤ 2 ^ 20 }
    ensures sum { result ≡ total W.weight (take index (joined blocks.now)) }
    ensures bound { unsigned_abs result ≤ 2 ^ 61 }
{
    let mut at = Walk {
        block: 0,
        left: index,
        sum: 0,
    };
    while at.block < blocks.len() {
        let block = &blocks[at.block];
        if at.left < block.len() {
            return at.end::<T, W>(block).sum;
        }
        at = at.past::<T, W>(block);
    }
    at.sum
}

/// How far a running sum comes over the items of a block that come before the end. So many items come before the block. It
/// stays where it is if it has passed the block, or has come to the end.
fn over<T: Copy, W: Weigh<T>>(
    block: &Block<T, W>,
    before: usize,
    at: Crossing,
    end: usize,
) -> Crossing
    requires begun { before ≤ at.index }
    requires ordered { at.index ≤ end }
    requires few { before + length block.now < 2 ^ 64 }
    requires bound { unsigned_abs at.before + (end - at.index) * 2 ^ 40 ≤ 2 ^ 61 }
    ensures found { (front rest : List T) → length front ≡ before
        → IsFirstBelow W.weight (front ++ (block.now ++ rest)) at.index (max at.index (min end (before + length block.now))) at.before result.index result.before }
    ensures bound { unsigned_abs result.before ≤ unsigned_abs at.before + (result.index - at.index) * 2 ^ 40 }
{
    let limit = end.min(before + block.len());
    if limit <= at.index {
        return at;
    }
    let start = Crossing {
        index: at.index - before,
        ..at
    };
    let found = block.first_below(start, limit - before);
    Crossing {
        index: before + found.index,
        ..found
    }
}

/// How far a running sum comes from an index before the end, without the item with which it falls below 0.
pub(crate) fn first_below<T: Copy, W: Weigh<T>>(
    blocks: &[Block<T, W>],
    start: Crossing,
    end: usize,
) -> Crossing
    requires ordered { start.index ≤ end }
    requires within { end ≤ length (joined blocks.now) }
    requires few { length (joined blocks.now) ≤ 2 ^ 20 }
    requires bound { unsigned_abs start.before + (end - start.index) * 2 ^ 40 ≤ 2 ^ 61 }
    ensures found { IsFirstBelow W.weight (joined blocks.now) start.index end start.before result.index result.before }
    ensures bound { unsigned_abs result.before ≤ unsigned_abs start.before + (result.index - start.index) * 2 ^ 40 }
{
    let mut at = start;
    let mut place = Spot { block: 0, index: 0 };
    while place.block < blocks.len() {
        let block = &blocks[place.block];
        let next = place.index + block.len();
        let found = over::<T, W>(block, place.index, at, end);
        if found.index < next || end <= found.index {
            return found;
        }
        at = found;
        place = Spot {
            block: place.block + 1,
            index: next,
        };
    }
    at
}

/// How many items the first blocks have, so many of them.
pub(crate) fn items_before<T: Copy, W: Weigh<T>>(blocks: &[Block<T, W>], count: usize) -> usize
    requires within { count ≤ length blocks.now }
    requires few { length (joined blocks.now) ≤ 2 ^ 20 }
    ensures { result ≡ length (joined (take count blocks.now)) }
{
    let mut place = Spot { block: 0, index: 0 };
    while place.block < count {
        place = Spot {
            block: place.block + 1,
            index: place.index + blocks[place.block].len(),
        };
    }
    place.index
}
