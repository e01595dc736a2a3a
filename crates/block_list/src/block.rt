//! A block of a list: items side by side, with their sums.
ghost use Rattle.std.specs.Prelude.{◌≡◌, ◌+◌, ◌-◌, ◌*◌, ◌^◌, ◌<◌, ◌≤◌, ◌≤ℤ◌, ℕ, List, Some, [], ◌++◌, unsigned_abs, length, take, drop, insert, remove, slice_get, slice_set, map, vec_len, vec_capacity, IfOk, IsFalse};
ghost use Rattle.std.specs.Option.{option_copied};
ghost use Rattle.block_list.specs.Bounds.{first_passes};
ghost use Rattle.block_list.specs.Sums.{total, IsFirstBelow};
ghost use Rattle.block_list.specs.declared.sums.TheConstants.{MOST};

use crate::bound::Bound;
use crate::crossing::{Crossing, first_below};
use crate::sums::{MOST, Sums, measure};
use crate::weigh::Weigh;
use std::alloc::Global;
use std::marker::{Model, PhantomData};
use stock_nums::memory::NoMemory;

/// At most 128 items side by side, with room for as many, and with their sums. Contracts see the list of the items.
#[derive(Drop)]
pub(crate) struct Block<T: Copy, W: Weigh<T>> {
    items: Vec<T>,
    sums: Sums,
    by: PhantomData<W>,
}

impl<T: Copy, W: Weigh<T>> Model for Block<T, W> {
    ghost Value = { List T };

    ghost view = { λ block. block.items.items };

    ghost invariant = { λ block. (MOST ≤ vec_capacity block.items) × (vec_len block.items ≤ MOST) × (block.sums.sum ≡ total W.weight block.items.items)
        × ((k : ℕ) → block.sums.low ≤ℤ total W.weight (take k block.items.items))
        × (unsigned_abs block.sums.sum ≤ vec_len block.items * 2 ^ 40) × (unsigned_abs block.sums.low ≤ vec_len block.items * 2 ^ 40) };
}

impl<T: Copy, W: Weigh<T>> Block<T, W> {
    /// A block with no items.
    pub(crate) fn new(alloc: Global) -> Result<Block<T, W>, NoMemory>
        ensures { IfOk result (λ block. block ≡ []) }
    {
        let items = Vec::with_capacity(alloc, MOST)?;
        Ok(Block {
            items,
            sums: Sums { sum: 0, low: 0 },
            by: PhantomData,
        })
    }

    pub(crate) fn len(&self) -> usize
        ensures length { result ≡ length self.now }
        ensures most { result ≤ MOST }
    {
        self.items.len()
    }

    pub(crate) fn as_slice(&self) -> &[T]
        ensures { result.now ≡ self.now }
    {
        self.items.as_slice()
    }

    /// Whether the first item comes before the bound.
    pub(crate) fn begins_above<B: Bound<T>>(&self, bound: &B) -> bool
        ensures { result ≡ first_passes (B.above bound.now) self.now }
    {
        match self.items.as_slice() {
            [first, ..] => bound.is_above(first),
            [] => false,
        }
    }

    /// The item at an index. None exactly where there is none.
    pub(crate) fn get(&self, index: usize) -> Option<&T>
        ensures { option_copied result ≡ slice_get self.now index }
    {
        self.items.get(index)
    }

    /// Puts an item in, before the one at the index.
    pub(crate) fn insert(&mut self, index: usize, item: T)
        requires within { index ≤ length self.old }
        requires room { length self.old < MOST }
        ensures { self.new ≡ insert self.old index item }
    {
        // There is room, so it does not fail.
        let _ = self.items.insert(index, item);
        self.sums = measure::<T, W>(self.items.as_slice());
    }

    /// Takes the item at the index out.
    pub(crate) fn remove(&mut self, index: usize) -> T
        requires { index < length self.old }
        ensures item { Some result ≡ slice_get self.old index }
        ensures rest { self.new ≡ remove self.old index }
    {
        let item = self.items.remove(index);
        self.sums = measure::<T, W>(self.items.as_slice());
        item
    }

    /// Puts an item in the place of the one at the index. Whether it counts something else: if not, all sums stay.
    pub(crate) fn set(&mut self, index: usize, item: T) -> bool
        requires { index < length self.old }
        ensures items { self.new ≡ slice_set self.old index item }
        ensures weights { IsFalse result → map W.weight self.new ≡ map W.weight self.old }
    {
        let counts_otherwise = W::weight(&item) != W::weight(&self.items[index]);
        self.items[index] = item;
        if counts_otherwise {
            self.sums = measure::<T, W>(self.items.as_slice());
        }
        counts_otherwise
    }

    /// Moves the items from the index on into a block with none.
    pub(crate) fn split(&mut self, index: usize, upper: &mut Block<T, W>)
        requires within { index ≤ length self.old }
        requires empty { upper.old ≡ [] }
        ensures lower { self.new ≡ take index self.old }
        ensures upper { upper.new ≡ drop index self.old }
    {
        // There is room, so it does not fail.
        let _ = upper.items.extend_from_slice(&self.items[index..]);
        upper.sums = measure::<T, W>(upper.items.as_slice());
        self.items.truncate(index);
        self.sums = measure::<T, W>(self.items.as_slice());
    }

    /// Moves the items of another block to the end.
    pub(crate) fn append(&mut self, other: &mut Block<T, W>)
        requires { length self.old + length other.old ≤ MOST }
        ensures all { self.new ≡ self.old ++ other.old }
        ensures none { other.new ≡ [] }
    {
        // There is room, so it does not fail.
        let _ = self.items.append(&mut other.items);
        other.sums = Sums { sum: 0, low: 0 };
        self.sums = measure::<T, W>(self.items.as_slice());
    }

    /// What the items count together.
    pub(crate) fn sum(&self) -> i64
        ensures sum { result ≡ total W.weight self.now }
        ensures bound { unsigned_abs result ≤ length self.now * 2 ^ 40 }
    {
        self.sums.sum
    }

    /// What the items count together, and the least of what fronts of them do.
    pub(crate) fn sums(&self) -> Sums
        ensures sum { result.sum ≡ total W.weight self.now }
        ensures low { (k : ℕ) → result.low ≤ℤ total W.weight (take k self.now) }
        ensures bound { (unsigned_abs result.sum ≤ length self.now * 2 ^ 40)
            × (unsigned_abs result.low ≤ length self.now * 2 ^ 40) }
    {
        self.sums
    }

    /// What the items before the index count together.
    pub(crate) fn sum_before(&self, index: usize) -> i64
        requires { index ≤ length self.now }
        ensures sum { result ≡ total W.weight (take index self.now) }
        ensures bound { unsigned_abs result ≤ 2 ^ 47 }
    {
        measure::<T, W>(&self.items[..index]).sum
    }

    /// How far a running sum comes from an index before the end. All items are passed at once where no front of them takes the
    /// sum below 0.
    pub(crate) fn first_below(&self, start: Crossing, end: usize) -> Crossing
        requires ordered { start.index ≤ end }
        requires within { end ≤ length self.now }
        requires bound { unsigned_abs start.before + (end - start.index) * 2 ^ 40 ≤ 2 ^ 61 }
        ensures found { IsFirstBelow W.weight self.now start.index end start.before result.index result.before }
        ensures bound { unsigned_abs result.before ≤ unsigned_abs start.before + (result.index - start.index) * 2 ^ 40 }
    {
        if start.index == 0 && end == self.len() && start.stays_enough(self.sums) {
            return start.past(end, self.sums);
        }
        first_below::<T, W>(self.items.as_slice(), start, end)
    }
}
