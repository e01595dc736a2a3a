//! A list in blocks, which several lists may share.
ghost use Rattle.std.specs.Prelude.{◌≡◌, ◌≤◌, ◌∷◌, ◌++◌, List, [], length, take, MatchOption, IfOk};
ghost use Rattle.std.specs.Iterator.{YieldsFirstRef, item_count};
ghost use Rattle.std.specs.List.{flat_map};

use crate::list::SharedList;
use std::alloc::Global;
use std::marker::Model;
use stock_nums::lines::Lines;
use stock_nums::memory::NoMemory;

/// The first items of a list in blocks, that several may hold at once, in any threads, and that none of them changes. Other lists may
/// have the same blocks, so that what two lists have in common is held once. Contracts see the first items.
#[derive(Drop)]
pub struct SharedBlocks<T: Drop> {
    blocks: SharedList<SharedList<T>>,
    /// How many items of the blocks are the list's, or None where all are.
    most: Option<usize>,
}

impl<T: Drop> Model for SharedBlocks<T> {
    ghost use Rattle.std.specs.Prelude.{List};
    ghost use Rattle.std.specs.List.{flat_map};
    ghost use Rattle.shared_list.specs.Whole.{first_of};

    ghost Value = { List T };

    ghost view = { λ list. first_of list.most (flat_map (λ block. block) list.blocks) };
}

impl<T: Drop> SharedBlocks<T> {
    /// No items. It takes no memory.
    pub fn new() -> SharedBlocks<T>
        ensures { result ≡ [] }
    {
        SharedBlocks {
            blocks: SharedList::new(),
            most: None,
        }
    }

    /// The items of these blocks, one after another. The only error is want of memory.
    pub fn of(alloc: Global, blocks: Lines<SharedList<T>>) -> Result<SharedBlocks<T>, NoMemory>
        ensures { IfOk result (λ list. list ≡ flat_map (λ block. block) blocks) }
    {
        Ok(SharedBlocks {
            blocks: SharedList::of(alloc, blocks)?,
            most: None,
        })
    }

    /// The same list once more, of which nothing is copied.
    ///
    /// # Errors
    ///
    /// `NoMemory`: 2^63 hold the list already.
    pub fn share(&self) -> Result<SharedBlocks<T>, NoMemory>
        ensures { IfOk result (λ same. same ≡ self.now) }
    {
        Ok(SharedBlocks {
            blocks: self.blocks.share()?,
            most: self.most,
        })
    }

    /// The first items once more, of which none is copied.
    ///
    /// # Errors
    ///
    /// `NoMemory`: 2^63 hold the list already.
    pub fn front(&self, len: usize) -> Result<SharedBlocks<T>, NoMemory>
        requires { len ≤ length self.now }
        ensures { IfOk result (λ list. list ≡ take len self.now) }
    {
        Ok(SharedBlocks {
            blocks: self.blocks.share()?,
            most: Some(len),
        })
    }

    /// The blocks, of whose items the list is the first ones.
    pub fn blocks(&self) -> &[SharedList<T>]
        ensures { (rest : List T) × (flat_map (λ block. block) result.now ≡ self.now ++ rest) }
    {
        self.blocks.as_slice()
    }

    /// A walk over the items, from the first to the last.
    pub fn items<'a>(&'a self) -> Items<'a, T>
        ensures { result ≡ self.now }
    {
        Items {
            block: &[],
            blocks: self.blocks.as_slice(),
            most: self.most,
        }
    }
}

/// A walk over the items of a list in blocks. Contracts see the items that are still to come.
#[derive(Drop)]
pub struct Items<'a, T: Drop> {
    /// The items of the block that the walk is in.
    block: &'a [T],
    /// The blocks behind it.
    blocks: &'a [SharedList<T>],
    /// How many items are to come at most, or None where all are.
    most: Option<usize>,
}

impl<'a, T: Drop> Model for Items<'a, T> {
    ghost use Rattle.std.specs.Prelude.{List, ◌++◌};
    ghost use Rattle.std.specs.List.{flat_map};
    ghost use Rattle.shared_list.specs.Whole.{first_of};

    ghost Value = { List T };

    ghost view = { λ walk. first_of walk.most (walk.block.now ++ flat_map (λ block. block) walk.blocks.now) };
}

impl<'a, T: Drop> Iterator for Items<'a, T> {
    type Item = &'a T;

    ghost next_gives = { YieldsFirstRef (λ walk. walk) };

    ghost remaining = { item_count (λ walk. walk) };

    fn next(&mut self) -> Option<&'a T> {
        let most = match self.most {
            Some(most) => Some(most.checked_sub(1)?),
            None => None,
        };
        let (first, block, behind) = next_of(self.block, self.blocks)?;
        *self = Items {
            block,
            blocks: behind,
            most,
        };
        Some(first)
    }
}

// The first item of a block and of those behind it, with what comes behind that one. None exactly where there is none.
fn next_of<'a, T: Drop>(
    block: &'a [T],
    blocks: &'a [SharedList<T>],
) -> Option<(&'a T, &'a [T], &'a [SharedList<T>])>
    ensures { MatchOption result
        (block.now ++ flat_map (λ block. block) blocks.now ≡ [])
        (λ found. block.now ++ flat_map (λ block. block) blocks.now
        ≡ found.0.now ∷ (found.1.now ++ flat_map (λ block. block) found.2.now)) }
{
    if let Some((first, behind)) = block.split_first() {
        return Some((first, behind, blocks));
    }
    match blocks.split_first() {
        Some((block, behind)) => next_of(block.as_slice(), behind),
        None => None,
    }
}
