//! The items at a bound and before it, found without their indices.
ghost use Rattle.std.specs.Prelude.{◌≡◌, ◌+◌, ℕ, All, length, IfSome, IfNone};
ghost use Rattle.block_list.specs.Blocks.{joined, IsFilled, IsSpot};
ghost use Rattle.block_list.specs.Bounds.{HasSides};

use crate::block::Block;
use crate::blocks::gap_before;
use crate::bound::Bound;
use crate::walks::Spot;
use crate::weigh::Weigh;

/// Where the first item stands that does not come before a bound. None where all do.
pub(crate) fn spot_from<T: Copy, W: Weigh<T>, B: Bound<T>>(
    blocks: &[Block<T, W>],
    bound: &B,
) -> Option<Spot>
    requires filled { All IsFilled blocks.now }
    ensures spot { IfSome result (λ spot. (at : ℕ) × HasSides (B.above bound.now) (joined blocks.now) at × IsSpot blocks.now at spot.block spot.index) }
    ensures none { IfNone result (HasSides (B.above bound.now) (joined blocks.now) (length (joined blocks.now))) }
{
    if blocks.is_empty() {
        return None;
    }
    let gap = gap_before(blocks, bound);
    if gap.index < blocks[gap.block].len() {
        return Some(gap);
    }
    if gap.block + 1 < blocks.len() {
        return Some(Spot {
            block: gap.block + 1,
            index: 0,
        });
    }
    None
}

/// Where the item stands after which a bound falls. None where it falls before all.
pub(crate) fn spot_before<T: Copy, W: Weigh<T>, B: Bound<T>>(
    blocks: &[Block<T, W>],
    bound: &B,
) -> Option<Spot>
    requires filled { All IsFilled blocks.now }
    ensures spot { IfSome result (λ spot. (at : ℕ) × HasSides (B.above bound.now) (joined blocks.now) (at + 1) × IsSpot blocks.now at spot.block spot.index) }
    ensures none { IfNone result (HasSides (B.above bound.now) (joined blocks.now) 0) }
{
    if blocks.is_empty() {
        return None;
    }
    let gap = gap_before(blocks, bound);
    if gap.index == 0 {
        return None;
    }
    Some(Spot {
        block: gap.block,
        index: gap.index - 1,
    })
}
