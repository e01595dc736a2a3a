//! Walks over groups of blocks by their heads, which go on over the blocks of one group.
ghost use Rattle.std.specs.Prelude.{◌≡◌, ◌+◌, ◌-◌, ◌*◌, ◌^◌, ◌<◌, ◌≤◌, ◌+ℤ◌, ◌++◌, List, min, max, unsigned_abs, length, take};
ghost use Rattle.block_list.specs.Blocks.{joined, IsSpot};
ghost use Rattle.block_list.specs.Heads.{IsHead, AreHeads};
ghost use Rattle.block_list.specs.Sums.{total, IsFirstBelow};

use crate::block::Block;
use crate::crossing::Crossing;
use crate::heads::{Head, group_of};
use crate::sums::GROUP;
use crate::walks::{self, Spot};
use crate::weigh::Weigh;

/// A walk that has come to a group.
#[derive(Clone, Copy)]
struct Place {
    group: usize,
    /// How many items are left to pass, or how many were passed.
    index: usize,
}

/// A walk that has come to a group, with so many items left to pass, and what those that it passed count.
#[derive(Clone, Copy)]
struct Walk {
    group: usize,
    left: usize,
    sum: i64,
}

impl Walk {
    /// The walk past a group.
    fn past(self, head: Head) -> Walk
        requires few { self.group + 1 < 2 ^ 64 }
        requires size { head.items ≤ self.left }
        requires bound { unsigned_abs self.sum ≤ 2 ^ 61 }
        requires small { unsigned_abs head.sums.sum ≤ 2 ^ 61 }
        ensures group { result.group ≡ self.group + 1 }
        ensures left { result.left ≡ self.left - head.items }
        ensures sum { result.sum ≡ self.sum +ℤ head.sums.sum }
    {
        Walk {
            group: self.group + 1,
            left: self.left - head.items,
            sum: self.sum + head.sums.sum,
        }
    }

    /// The sum with the items of the group that are left to pass.
    fn end<T: Copy, W: Weigh<T>>(self, group: &[Block<T, W>]) -> i64
        requires size { self.left ≤ length (joined group.now) }
        requires few { length (joined group.now) ≤ 2 ^ 20 }
        requires bound { unsigned_abs self.sum ≤ 2 ^ 61 }
        ensures sum { result ≡ self.sum +ℤ total W.weight (take self.left (joined group.now)) }
        ensures bound { unsigned_abs result ≤ 2 ^ 62 }
    {
        self.sum + walks::sum_before(group, self.left)
    }
}

/// Where the item at an index stands.
pub(crate) fn spot_of<T: Copy, W: Weigh<T>>(
    heads: &[Head],
    blocks: &[Block<T, W>],
    index: usize,
) -> Spot
    requires heads { AreHeads W.weight heads.now blocks.now }
    requires within { index < length (joined blocks.now) }
    ensures { IsSpot blocks.now index result.block result.index }
{
    let mut at = Place { group: 0, index };
    while at.group < heads.len() {
        let size = heads[at.group].items;
        if at.index < size {
            let spot = walks::spot_of(group_of(blocks, at.group), at.index);
            return Spot {
                block: at.group * GROUP + spot.block,
                index: spot.index,
            };
        }
        at = Place {
            group: at.group + 1,
            index: at.index - size,
        };
    }
    Spot {
        block: blocks.len(),
        index: at.index,
    }
}

/// What the items before an index count together.
pub(crate) fn sum_before<T: Copy, W: Weigh<T>>(
    heads: &[Head],
    blocks: &[Block<T, W>],
    index: usize,
) -> i64
    requires heads { AreHeads W.weight heads.now blocks.now }
    requires within { index ≤ length (joined blocks.now) }
    requires few { length (joined blocks.now) ≤ 2 ^ 20 }
    ensures { result ≡ total W.weight (take index (joined blocks.now)) }
{
    let mut at = Walk {
        group: 0,
        left: index,
        sum: 0,
    };
    while at.group < heads.len() {
        let head = heads[at.group];
        if at.left < head.items {
            return at.end(group_of(blocks, at.group));
        }
        at = at.past(head);
    }
    at.sum
}

/// How far a running sum comes from an index before the end over the items of a group. All are passed at once where no front of
/// them takes the sum below 0.
fn below_in<T: Copy, W: Weigh<T>>(
    head: Head,
    group: &[Block<T, W>],
    start: Crossing,
    end: usize,
) -> Crossing
    requires head { IsHead W.weight head (joined group.now) }
    requires ordered { start.index ≤ end }
    requires within { end ≤ length (joined group.now) }
    requires few { length (joined group.now) ≤ 2 ^ 20 }
    requires bound { unsigned_abs start.before + (end - start.index) * 2 ^ 40 ≤ 2 ^ 61 }
    ensures found { IsFirstBelow W.weight (joined group.now) start.index end start.before result.index result.before }
    ensures bound { unsigned_abs result.before ≤ unsigned_abs start.before + (result.index - start.index) * 2 ^ 40 }
{
    if start.index == 0 && end == head.items && start.stays_enough(head.sums) {
        return start.past(end, head.sums);
    }
    walks::first_below(group, start, end)
}

/// How far a running sum comes over the items of a group that come before the end. So many items come before the group. It
/// stays where it is if it has passed the group, or has come to the end.
fn over<T: Copy, W: Weigh<T>>(
    head: Head,
    group: &[Block<T, W>],
    before: usize,
    at: Crossing,
    end: usize,
) -> Crossing
    requires head { IsHead W.weight head (joined group.now) }
    requires begun { before ≤ at.index }
    requires ordered { at.index ≤ end }
    requires few { before + length (joined group.now) ≤ 2 ^ 20 }
    requires bound { unsigned_abs at.before + (end - at.index) * 2 ^ 40 ≤ 2 ^ 61 }
    ensures found { (front rest : List T) → length front ≡ before
        → IsFirstBelow W.weight (front ++ (joined group.now ++ rest))
        at.index (max at.index (min end (before + length (joined group.now)))) at.before result.index result.before }
    ensures bound { unsigned_abs result.before ≤ unsigned_abs at.before + (result.index - at.index) * 2 ^ 40 }
{
    let limit = end.min(before + head.items);
    if limit <= at.index {
        return at;
    }
    let start = Crossing {
        index: at.index - before,
        ..at
    };
    let found = below_in(head, group, start, limit - before);
    Crossing {
        index: before + found.index,
        ..found
    }
}

/// How far a running sum comes from an index before the end, without the item with which it falls below 0.
pub(crate) fn first_below<T: Copy, W: Weigh<T>>(
    heads: &[Head],
    blocks: &[Block<T, W>],
    start: Crossing,
    end: usize,
) -> Crossing
    requires heads { AreHeads W.weight heads.now blocks.now }
    requires ordered { start.index ≤ end }
    requires within { end ≤ length (joined blocks.now) }
    requires few { length (joined blocks.now) ≤ 2 ^ 20 }
    requires bound { unsigned_abs start.before ≤ 2 ^ 60 }
    ensures { IsFirstBelow W.weight (joined blocks.now) start.index end start.before result.index result.before }
{
    let mut at = start;
    let mut place = Place { group: 0, index: 0 };
    while place.group < heads.len() {
        let head = heads[place.group];
        let next = place.index + head.items;
        let found = over(head, group_of(blocks, place.group), place.index, at, end);
        if found.index < next || end <= found.index {
            return found;
        }
        at = found;
        place = Place {
            group: place.group + 1,
            index: next,
        };
    }
    at
}

/// How many items the first blocks have, so many of them.
pub(crate) fn items_before<T: Copy, W: Weigh<T>>(
    heads: &[Head],
    blocks: &[Block<T, W>],
    count: usize,
) -> usize
    requires heads { AreHeads W.weight heads.now blocks.now }
    requires within { count ≤ length blocks.now }
    requires few { length (joined blocks.now) ≤ 2 ^ 20 }
    ensures { result ≡ length (joined (take count blocks.now)) }
{
    let mut place = Place { group: 0, index: 0 };
    while place.group < count / GROUP {
        place = Place {
            group: place.group + 1,
            index: place.index + heads[place.group].items,
        };
    }
    place.index + walks::items_before(group_of(blocks, place.group), count % GROUP)
}
