//! A list in blocks.
ghost use Rattle.std.specs.Prelude.{◌≡◌, ◌+◌, ◌<◌, ◌≤◌, ◌^◌, ℕ, [], Some, length, insert, remove, take, drop, min, slice_get, slice_set, unsigned_abs, true, false, OnOk};
ghost use Rattle.std.specs.Option.{option_copied};
ghost use Rattle.std.specs.List.Sorted.{IsPartitionedBy, IsPartitionPoint};
ghost use Rattle.block_list.specs.Bounds.{HasSides, get_before};
ghost use Rattle.block_list.specs.Changes.{change_at};
ghost use Rattle.block_list.specs.Sums.{total, IsFirstBelow};

use crate::at_bound::{spot_before, spot_from};
use crate::block::Block;
use crate::blocks::{partition_point, put, put_before, replace, supply, take_out};
use crate::bound::Bound;
use crate::change::Change;
use crate::crossing::Crossing;
use crate::groups::{first_below, spot_of, sum_before};
use crate::heads::{Head, renew, renew_if};
use crate::weigh::Weigh;
use std::alloc::Global;
use std::marker::Model;
use stock_nums::memory::NoMemory;

/// How many empty blocks are kept where the others are given back: the next insertions need no new one.
const KEPT_BLOCKS: usize = 2;

/// A list of at most 2^20 items that takes one in or out at any index by moving at most 127 others. Contracts see the list of
/// its items, and how many more can be put in without memory.
#[derive(Drop)]
pub struct BlockList<T: Copy, W: Weigh<T>> {
    blocks: Vec<Block<T, W>>,
    pool: Vec<Block<T, W>>,
    heads: Vec<Head>,
    len: usize,
    alloc: Global,
}

impl<T: Copy, W: Weigh<T>> Model for BlockList<T, W> {
    ghost use Rattle.std.specs.Prelude.{◌≡◌, ◌+◌, ◌≤◌, ◌^◌, [], length, All, vec_len, vec_capacity};
    ghost use Rattle.block_list.specs.Blocks.{joined, room_for, HaveRoom, IsFilled};
    ghost use Rattle.block_list.specs.Heads.{AreHeads};
    ghost use Rattle.block_list.specs.State.{ListState};

    ghost Value = { ListState T };

    ghost view = { λ list. record { items = joined list.blocks.items; spare = room_for list.blocks.items (vec_len list.pool) } };

    ghost invariant = { λ list. (All IsFilled list.blocks.items) × (All (λ b. b ≡ []) list.pool.items)
        × (list.len ≡ length (joined list.blocks.items)) × (list.len ≤ 2 ^ 20)
        × HaveRoom (vec_len list.blocks + vec_len list.pool)
        (vec_capacity list.blocks) (vec_capacity list.pool) (vec_capacity list.heads)
        × AreHeads W.weight list.heads.items list.blocks.items };
}

impl<T: Copy, W: Weigh<T>> BlockList<T, W> {
    /// No item. It takes no memory.
    pub fn new(alloc: Global) -> BlockList<T, W>
        ensures { result.items ≡ [] }
    {
        BlockList {
            blocks: Vec::new(alloc),
            pool: Vec::new(alloc),
            heads: Vec::new(alloc),
            len: 0,
            alloc,
        }
    }

    /// How many items there are.
    pub fn len(&self) -> usize
        ensures { result ≡ length self.now.items }
    {
        self.len
    }

    /// The item at an index. None exactly where there is none.
    pub fn get(&self, index: usize) -> Option<&T>
        ensures { option_copied result ≡ slice_get self.now.items index }
    {
        if index < self.len {
            let spot = spot_of(self.heads.as_slice(), self.blocks.as_slice(), index);
            self.blocks[spot.block].get(spot.index)
        } else {
            None
        }
    }

    /// The first item that does not come before a bound, as its index would say, without the index. None exactly where all come
    /// before.
    pub fn first_from<B: Bound<T>>(&self, bound: &B) -> Option<&T>
        ensures { (at : ℕ) × HasSides (B.above bound.now) self.now.items at × (option_copied result ≡ slice_get self.now.items at) }
    {
        let spot = spot_from(self.blocks.as_slice(), bound)?;
        self.blocks[spot.block].get(spot.index)
    }

    /// The item after which a bound falls, as its index would say, without the index. None exactly where the bound falls before
    /// all.
    pub fn last_before<B: Bound<T>>(&self, bound: &B) -> Option<&T>
        ensures { (at : ℕ) × HasSides (B.above bound.now) self.now.items at × (option_copied result ≡ get_before self.now.items at) }
    {
        let spot = spot_before(self.blocks.as_slice(), bound)?;
        self.blocks[spot.block].get(spot.index)
    }

    /// The items from an index on that stand side by side: to walk over all, go on after them.
    pub fn run_from(&self, index: usize) -> &[T]
        requires { index < length self.now.items }
        ensures some { 0 < length result.now }
        ensures items { result.now ≡ take (length result.now) (drop index self.now.items) }
    {
        let spot = spot_of(self.heads.as_slice(), self.blocks.as_slice(), index);
        &self.blocks[spot.block].as_slice()[spot.index..]
    }

    /// Puts an item in, before the one at the index or at the end. It takes no memory.
    pub fn insert(&mut self, index: usize, item: T)
        requires within { index ≤ length self.old.items }
        requires room { 0 < self.old.spare }
        requires few { length self.old.items < 2 ^ 20 }
        ensures items { self.new.items ≡ insert self.old.items index item }
        ensures room { self.old.spare ≤ self.new.spare + 1 }
    {
        let changed = put(
            &mut self.blocks,
            &mut self.pool,
            self.heads.as_slice(),
            self.len,
            index,
            item,
        );
        renew(&mut self.heads, self.blocks.as_slice(), changed);
        self.len += 1;
    }

    /// Puts an item in before a bound, as its index would say, without the index. It takes no memory.
    pub fn insert_before<B: Bound<T>>(&mut self, bound: &B, item: T)
        requires room { 0 < self.old.spare }
        requires few { length self.old.items < 2 ^ 20 }
        ensures items { (at : ℕ) × HasSides (B.above bound.now) self.old.items at × (self.new.items ≡ insert self.old.items at item) }
        ensures room { self.old.spare ≤ self.new.spare + 1 }
    {
        let changed = put_before(&mut self.blocks, &mut self.pool, bound, item);
        renew(&mut self.heads, self.blocks.as_slice(), changed);
        self.len += 1;
    }

    /// Takes the item at the index out. No room is lost. It takes no memory.
    pub fn remove(&mut self, index: usize) -> T
        requires { index < length self.old.items }
        ensures item { Some result ≡ slice_get self.old.items index }
        ensures rest { self.new.items ≡ remove self.old.items index }
        ensures room { self.old.spare ≤ self.new.spare }
    {
        let taken = take_out(
            &mut self.blocks,
            &mut self.pool,
            self.heads.as_slice(),
            index,
        );
        renew(&mut self.heads, self.blocks.as_slice(), taken.changed);
        self.len -= 1;
        taken.item
    }

    /// Puts an item in the place of the one at the index. It takes no memory.
    pub fn set(&mut self, index: usize, item: T)
        requires { index < length self.old.items }
        ensures items { self.new.items ≡ slice_set self.old.items index item }
        ensures room { self.new.spare ≡ self.old.spare }
    {
        let spot = spot_of(self.heads.as_slice(), self.blocks.as_slice(), index);
        let other = replace(&mut self.blocks, spot, item);
        renew_if(&mut self.heads, self.blocks.as_slice(), spot.block, other);
    }

    /// Makes of the first item that does not come before a bound what a change makes of it, if there is one, as its index would
    /// say, without the index. It takes no memory.
    pub fn update_first_from<B: Bound<T>, C: Change<T>>(&mut self, bound: &B, change: &C)
        ensures items { (at : ℕ) × HasSides (B.above bound.now) self.old.items at × (self.new.items ≡ change_at (C.changed change.now) self.old.items at) }
        ensures room { self.new.spare ≡ self.old.spare }
    {
        if let Some(spot) = spot_from(self.blocks.as_slice(), bound) {
            let item = &self.blocks[spot.block].as_slice()[spot.index];
            if let Some(item) = change.change(item) {
                let other = replace(&mut self.blocks, spot, item);
                renew_if(&mut self.heads, self.blocks.as_slice(), spot.block, other);
            }
        }
    }

    /// Makes room for `n` more items. The items stay as they are, and no room is lost.
    ///
    /// # Errors
    ///
    /// `NoMemory`: memory was wanting, and there may be more room than before.
    pub fn reserve(&mut self, n: usize) -> Result<(), NoMemory>
        ensures room { OnOk result (n ≤ self.new.spare) }
        ensures unchanged { self.new.items ≡ self.old.items }
        ensures room_stays { self.old.spare ≤ self.new.spare }
    {
        supply(
            self.alloc,
            &mut self.blocks,
            &mut self.pool,
            &mut self.heads,
            n,
        )
    }

    /// Gives the memory of empty blocks back, but for a few: room for at most 128 more items is left, and for two
    /// wherever there was. The items stay as they are. It takes no memory.
    pub fn release(&mut self)
        ensures unchanged { self.new.items ≡ self.old.items }
        ensures released { self.new.spare ≤ 128 }
        ensures room { min 2 self.old.spare ≤ self.new.spare }
    {
        self.pool.truncate(KEPT_BLOCKS);
    }

    /// What the items before the index count together.
    pub fn sum_before(&self, index: usize) -> i64
        requires { index ≤ length self.now.items }
        ensures { result ≡ total W.weight (take index self.now.items) }
    {
        sum_before(self.heads.as_slice(), self.blocks.as_slice(), index)
    }

    /// How far a running sum comes from an index before the end: it does not fall below 0 up to the index that is answered, and
    /// with the item there it does, unless that is the end.
    pub fn first_below(&self, start: Crossing, end: usize) -> Crossing
        requires ordered { start.index ≤ end }
        requires within { end ≤ length self.now.items }
        requires bound { unsigned_abs start.before ≤ 2 ^ 60 }
        ensures { IsFirstBelow W.weight self.now.items start.index end start.before result.index result.before }
    {
        first_below(self.heads.as_slice(), self.blocks.as_slice(), start, end)
    }

    /// Where a bound falls: how many items come before it, where those that do come first.
    pub fn partition_point<B: Bound<T>>(&self, bound: &B) -> usize
        ensures sides { HasSides (B.above bound.now) self.now.items result }
        ensures point { IsPartitionedBy (B.above bound.now) self.now.items
            → IsPartitionPoint (λ y. B.above bound.now y ≡ true) (λ y. B.above bound.now y ≡ false) self.now.items result }
    {
        partition_point(self.heads.as_slice(), self.blocks.as_slice(), bound)
    }
}
