//! Heads of groups of blocks: what is kept of each group in one place, so that a walk can pass it at once.
ghost use Rattle.std.specs.Prelude.{◌≡◌, ◌+◌, ◌*◌, ◌^◌, ◌<◌, ◌≤◌, ◌++◌, Some, List, unsigned_abs, length, vec_capacity, IsFalse};
ghost use Rattle.block_list.specs.Blocks.{joined};
ghost use Rattle.block_list.specs.Heads.{group_at, IsHead, AreHeads, ChangesOnly};
ghost use Rattle.block_list.specs.declared.sums.TheConstants.{MOST, GROUP};

use crate::block::Block;
use crate::sums::{GROUP, Sums};
use crate::weigh::Weigh;

/// How many items the blocks of a group have, and the sums of these items.
#[derive(Clone, Copy)]
pub(crate) struct Head {
    pub(crate) items: usize,
    pub(crate) sums: Sums,
}

impl Head {
    /// The head with one block more.
    fn with<T: Copy, W: Weigh<T>>(self, block: &Block<T, W>) -> Head
        requires few { self.items ≤ 2 ^ 20 }
        requires small { unsigned_abs self.sums.sum ≤ 2 ^ 60 }
        ensures head { (front : List T) → IsHead W.weight self front → IsHead W.weight result (front ++ block.now) }
        ensures most { result.items ≤ self.items + MOST }
    {
        Head {
            items: self.items + block.len(),
            sums: self.sums.followed_by(block.sums()),
        }
    }
}

/// The blocks of a group: none past the last group.
pub(crate) fn group_of<T: Copy, W: Weigh<T>>(blocks: &[Block<T, W>], group: usize) -> &[Block<T, W>]
    ensures { result.now ≡ group_at blocks.now group }
{
    let start = group.saturating_mul(GROUP).min(blocks.len());
    let end = start + GROUP.min(blocks.len() - start);
    &blocks[start..end]
}

/// The head of the blocks of a group.
fn head_of<T: Copy, W: Weigh<T>>(group: &[Block<T, W>]) -> Head
    requires { length group.now ≤ GROUP }
    ensures { IsHead W.weight result (joined group.now) }
{
    let mut head = Head {
        items: 0,
        sums: Sums { sum: 0, low: 0 },
    };
    for block in group {
        head = head.with::<T, W>(block);
    }
    head
}

/// Makes the heads of all groups anew.
fn renew_all<T: Copy, W: Weigh<T>>(heads: &mut Vec<Head>, blocks: &[Block<T, W>])
    requires { length blocks.now ≤ GROUP * vec_capacity heads.old }
    ensures heads { AreHeads W.weight heads.new.items blocks.now }
    ensures room { vec_capacity heads.new ≡ vec_capacity heads.old }
{
    heads.clear();
    while heads.len().saturating_mul(GROUP) < blocks.len() {
        let head = head_of(group_of(blocks, heads.len()));
        heads.push_reserved(head);
    }
}

/// Makes the head of the group anew in which a block has changed.
fn renew_at<T: Copy, W: Weigh<T>>(heads: &mut Vec<Head>, blocks: &[Block<T, W>], block: usize)
    requires { (was : List (List T)) × AreHeads W.weight heads.old.items was × ChangesOnly (Some block) was blocks.now }
    ensures heads { AreHeads W.weight heads.new.items blocks.now }
    ensures room { vec_capacity heads.new ≡ vec_capacity heads.old }
{
    let group = block / GROUP;
    heads[group] = head_of(group_of(blocks, group));
}

/// Makes the heads anew of the groups that have changed: that of one block, if it alone has, and else all.
pub(crate) fn renew<T: Copy, W: Weigh<T>>(
    heads: &mut Vec<Head>,
    blocks: &[Block<T, W>],
    changed: Option<usize>,
)
    requires changed { (was : List (List T)) × AreHeads W.weight heads.old.items was × ChangesOnly changed was blocks.now }
    requires room { length blocks.now ≤ GROUP * vec_capacity heads.old }
    ensures heads { AreHeads W.weight heads.new.items blocks.now }
    ensures room { vec_capacity heads.new ≡ vec_capacity heads.old }
{
    match changed {
        Some(block) => renew_at(heads, blocks, block),
        None => renew_all(heads, blocks),
    }
}

/// Makes the head of the group anew in which an item has come in the place of another one, if it counts something else.
pub(crate) fn renew_if<T: Copy, W: Weigh<T>>(
    heads: &mut Vec<Head>,
    blocks: &[Block<T, W>],
    block: usize,
    counts_otherwise: bool,
)
    requires changed { (was : List (List T)) × AreHeads W.weight heads.old.items was × ChangesOnly (Some block) was blocks.now }
    requires same { IsFalse counts_otherwise → AreHeads W.weight heads.old.items blocks.now }
    ensures heads { AreHeads W.weight heads.new.items blocks.now }
    ensures room { vec_capacity heads.new ≡ vec_capacity heads.old }
{
    if counts_otherwise {
        renew_at(heads, blocks, block);
    }
}
