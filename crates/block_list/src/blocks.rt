//! Blocks side by side: how items come into them and go.
ghost use Rattle.std.specs.Prelude.{◌≡◌, ◌+◌, ◌*◌, ◌^◌, ◌<◌, ◌≤◌, ◌⊎◌, ℕ, List, [], ◌∷◌, Some, All, slice_get, remove, length, take, drop, insert, slice_set, vec_len, vec_capacity, IfSome, IsFalse, OnOk};
ghost use Rattle.block_list.specs.Blocks.{joined, block_at, pressure, room_for, HaveRoom, IsFilled, IsSpot, IsGap};
ghost use Rattle.block_list.specs.Bounds.{HasSides};
ghost use Rattle.block_list.specs.Heads.{AreHeads, ChangesOnly};
ghost use Rattle.block_list.specs.declared.heads.Head.{Head};
ghost use Rattle.block_list.specs.declared.sums.TheConstants.{MOST, HALF};

use crate::block::Block;
use crate::bound::{Bound, search};
use crate::groups::{items_before, spot_of};
use crate::heads::Head;
use crate::sums::{GROUP, HALF, MOST};
use crate::walks::Spot;
use crate::weigh::Weigh;
use std::alloc::Global;
use stock_nums::memory::NoMemory;

/// A bound among blocks, by their first items.
#[derive(Clone, Copy)]
struct Begins<'a, B> {
    bound: &'a B,
}

impl<'a, T: Copy, W: Weigh<T>, B: Bound<T>> Bound<Block<T, W>> for Begins<'a, B> {
    ghost use Rattle.block_list.specs.Bounds.{first_passes};

    ghost above = { λ begins block. first_passes (B.above begins.bound.now) block };

    fn is_above(&self, block: &Block<T, W>) -> bool {
        block.begins_above(self.bound)
    }
}

/// Where an item that is put in at an index comes to stand: before the item there, or at the end of the last block.
fn gap_of<T: Copy, W: Weigh<T>>(
    heads: &[Head],
    blocks: &[Block<T, W>],
    len: usize,
    index: usize,
) -> Spot
    requires heads { AreHeads W.weight heads.now blocks.now }
    requires some { 0 < length blocks.now }
    requires len { len ≡ length (joined blocks.now) }
    requires within { index ≤ len }
    ensures { IsGap blocks.now index result.block result.index }
{
    if index < len {
        return spot_of(heads, blocks, index);
    }
    let last = blocks.len() - 1;
    Spot {
        block: last,
        index: blocks[last].len(),
    }
}

/// Puts an item into a block that has room for it.
fn insert_in<T: Copy, W: Weigh<T>>(blocks: &mut Vec<Block<T, W>>, gap: Spot, item: T)
    requires within { gap.block < vec_len blocks.old }
    requires inside { gap.index ≤ length (block_at blocks.old.items gap.block) }
    requires room { length (block_at blocks.old.items gap.block) < MOST }
    ensures blocks { blocks.new.items ≡ slice_set blocks.old.items gap.block (insert (block_at blocks.old.items gap.block) gap.index item) }
    ensures room { vec_capacity blocks.new ≡ vec_capacity blocks.old }
{
    blocks[gap.block].insert(gap.index, item);
}

/// Parts a block at an index: its later items go into a block of the pool, which comes after it.
fn split<T: Copy, W: Weigh<T>>(
    blocks: &mut Vec<Block<T, W>>,
    pool: &mut Vec<Block<T, W>>,
    block: usize,
    cut: usize,
)
    requires within { block < vec_len blocks.old }
    requires inside { cut ≤ length (block_at blocks.old.items block) }
    requires room { vec_len blocks.old < vec_capacity blocks.old }
    requires pool { 0 < vec_len pool.old }
    requires empty { All (λ b. b ≡ []) pool.old.items }
    ensures blocks { blocks.new.items ≡ insert (slice_set blocks.old.items block (take cut (block_at blocks.old.items block))) (block + 1) (drop cut (block_at blocks.old.items block)) }
    ensures room { (vec_capacity blocks.new ≡ vec_capacity blocks.old) × (vec_capacity pool.new ≡ vec_capacity pool.old) }
    ensures pool { vec_len pool.new + 1 ≡ vec_len pool.old }
    ensures empty { All (λ b. b ≡ []) pool.new.items }
{
    let mut upper = pool.take_last();
    blocks[block].split(cut, &mut upper);
    // There is room, so it does not fail.
    let _ = blocks.insert(block + 1, upper);
}

/// Where a full block is parted into which an item was put: before the item where it came to the end of all, so that blocks
/// fill where items come in order, and else in the middle.
fn cut_of(blocks: usize, gap: Spot) -> usize
    requires { gap.block < blocks }
    ensures within { (HALF ≤ result) × (result < MOST) }
    ensures middle { gap.block + 1 < blocks → result ≡ HALF }
{
    if gap.block + 1 == blocks && gap.index == MOST - 1 {
        MOST - 1
    } else {
        HALF
    }
}

/// Puts an item into a gap. A block that is full then is parted. It answers which block has changed, if it is one alone.
fn put_among<T: Copy, W: Weigh<T>>(
    blocks: &mut Vec<Block<T, W>>,
    pool: &mut Vec<Block<T, W>>,
    gap: Spot,
    item: T,
) -> Option<usize>
    requires within { gap.block < length blocks.old.items }
    requires inside { gap.index ≤ length (block_at blocks.old.items gap.block) }
    requires filled { All IsFilled blocks.old.items }
    requires room { vec_len blocks.old < vec_capacity blocks.old }
    requires pool { 0 < vec_len pool.old }
    requires empty { All (λ b. b ≡ []) pool.old.items }
    ensures items { (at : ℕ) → IsGap blocks.old.items at gap.block gap.index → joined blocks.new.items ≡ insert (joined blocks.old.items) at item }
    ensures changed { ChangesOnly result blocks.old.items blocks.new.items }
    ensures filled { All IsFilled blocks.new.items }
    ensures empty { All (λ b. b ≡ []) pool.new.items }
    ensures room { (vec_capacity blocks.new ≡ vec_capacity blocks.old) × (vec_capacity pool.new ≡ vec_capacity pool.old) }
    ensures count { vec_len blocks.new + vec_len pool.new ≡ vec_len blocks.old + vec_len pool.old }
    ensures pool { vec_len pool.old ≤ vec_len pool.new + 1 }
    ensures pressure { pressure blocks.new.items + HALF * vec_len pool.old ≤ pressure blocks.old.items + HALF * vec_len pool.new + 1 }
{
    insert_in(blocks, gap, item);
    if blocks[gap.block].len() < MOST {
        return Some(gap.block);
    }
    let cut = cut_of(blocks.len(), gap);
    split(blocks, pool, gap.block, cut);
    None
}

/// The first block of a list, with one item.
fn start<T: Copy, W: Weigh<T>>(blocks: &mut Vec<Block<T, W>>, pool: &mut Vec<Block<T, W>>, item: T)
    requires none { blocks.old.items ≡ [] }
    requires room { vec_len blocks.old < vec_capacity blocks.old }
    requires pool { 0 < vec_len pool.old }
    requires empty { All (λ b. b ≡ []) pool.old.items }
    ensures blocks { blocks.new.items ≡ (item ∷ []) ∷ [] }
    ensures empty { All (λ b. b ≡ []) pool.new.items }
    ensures room { (vec_capacity blocks.new ≡ vec_capacity blocks.old) × (vec_capacity pool.new ≡ vec_capacity pool.old) }
    ensures pool { vec_len pool.new + 1 ≡ vec_len pool.old }
{
    let mut block = pool.take_last();
    block.insert(0, item);
    blocks.push_reserved(block);
}

/// Puts an item in, before the one at an index or at the end. It takes at most one block of the pool, and
/// answers which block has changed, if it is one alone.
pub(crate) fn put<T: Copy, W: Weigh<T>>(
    blocks: &mut Vec<Block<T, W>>,
    pool: &mut Vec<Block<T, W>>,
    heads: &[Head],
    len: usize,
    index: usize,
    item: T,
) -> Option<usize>
    requires heads { AreHeads W.weight heads.now blocks.old.items }
    requires len { len ≡ length (joined blocks.old.items) }
    requires within { index ≤ len }
    requires filled { All IsFilled blocks.old.items }
    requires room { vec_len blocks.old < vec_capacity blocks.old }
    requires pool { 0 < vec_len pool.old }
    requires empty { All (λ b. b ≡ []) pool.old.items }
    ensures items { joined blocks.new.items ≡ insert (joined blocks.old.items) index item }
    ensures changed { ChangesOnly result blocks.old.items blocks.new.items }
    ensures filled { All IsFilled blocks.new.items }
    ensures empty { All (λ b. b ≡ []) pool.new.items }
    ensures room { (vec_capacity blocks.new ≡ vec_capacity blocks.old) × (vec_capacity pool.new ≡ vec_capacity pool.old) }
    ensures count { vec_len blocks.new + vec_len pool.new ≡ vec_len blocks.old + vec_len pool.old }
    ensures pool { vec_len pool.old ≤ vec_len pool.new + 1 }
    ensures pressure { pressure blocks.new.items + HALF * vec_len pool.old ≤ pressure blocks.old.items + HALF * vec_len pool.new + 1 }
{
    if blocks.is_empty() {
        start(blocks, pool, item);
        return None;
    }
    let gap = gap_of(heads, blocks.as_slice(), len, index);
    put_among(blocks, pool, gap, item)
}

/// Where an item comes to stand before a bound: in the last block that begins before the bound, or before all.
pub(crate) fn gap_before<T: Copy, W: Weigh<T>, B: Bound<T>>(
    blocks: &[Block<T, W>],
    bound: &B,
) -> Spot
    requires some { 0 < length blocks.now }
    requires filled { All IsFilled blocks.now }
    ensures gap { IsGap blocks.now (length (joined (take result.block blocks.now)) + result.index) result.block result.index }
    ensures sides { HasSides (B.above bound.now) (joined blocks.now) (length (joined (take result.block blocks.now)) + result.index) }
    ensures first { result.index ≡ 0 → result.block ≡ 0 }
{
    let count = search(blocks, &Begins { bound });
    if count == 0 {
        return Spot { block: 0, index: 0 };
    }
    let block = count - 1;
    Spot {
        block,
        index: search(blocks[block].as_slice(), bound),
    }
}

/// Where a bound falls in blocks, each with an item: before the index there is an item before the bound, if any, and at it one
/// that is not.
pub(crate) fn partition_point<T: Copy, W: Weigh<T>, B: Bound<T>>(
    heads: &[Head],
    blocks: &[Block<T, W>],
    bound: &B,
) -> usize
    requires heads { AreHeads W.weight heads.now blocks.now }
    requires filled { All IsFilled blocks.now }
    requires few { length (joined blocks.now) ≤ 2 ^ 20 }
    ensures { HasSides (B.above bound.now) (joined blocks.now) result }
{
    if blocks.is_empty() {
        return 0;
    }
    let gap = gap_before(blocks, bound);
    items_before(heads, blocks, gap.block) + gap.index
}

/// Puts an item in before a bound. It takes at most one block of the pool, and answers which block has changed, if it is one
/// alone.
pub(crate) fn put_before<T: Copy, W: Weigh<T>, B: Bound<T>>(
    blocks: &mut Vec<Block<T, W>>,
    pool: &mut Vec<Block<T, W>>,
    bound: &B,
    item: T,
) -> Option<usize>
    requires filled { All IsFilled blocks.old.items }
    requires room { vec_len blocks.old < vec_capacity blocks.old }
    requires pool { 0 < vec_len pool.old }
    requires empty { All (λ b. b ≡ []) pool.old.items }
    ensures items { (at : ℕ) × HasSides (B.above bound.now) (joined blocks.old.items) at × (joined blocks.new.items ≡ insert (joined blocks.old.items) at item) }
    ensures changed { ChangesOnly result blocks.old.items blocks.new.items }
    ensures filled { All IsFilled blocks.new.items }
    ensures empty { All (λ b. b ≡ []) pool.new.items }
    ensures room { (vec_capacity blocks.new ≡ vec_capacity blocks.old) × (vec_capacity pool.new ≡ vec_capacity pool.old) }
    ensures count { vec_len blocks.new + vec_len pool.new ≡ vec_len blocks.old + vec_len pool.old }
    ensures pool { vec_len pool.old ≤ vec_len pool.new + 1 }
    ensures pressure { pressure blocks.new.items + HALF * vec_len pool.old ≤ pressure blocks.old.items + HALF * vec_len pool.new + 1 }
{
    if blocks.is_empty() {
        start(blocks, pool, item);
        return None;
    }
    let gap = gap_before(blocks.as_slice(), bound);
    put_among(blocks, pool, gap, item)
}

/// Takes an item out of a block.
fn remove_in<T: Copy, W: Weigh<T>>(blocks: &mut Vec<Block<T, W>>, spot: Spot) -> T
    requires within { spot.block < vec_len blocks.old }
    requires inside { spot.index < length (block_at blocks.old.items spot.block) }
    ensures item { Some result ≡ slice_get (block_at blocks.old.items spot.block) spot.index }
    ensures blocks { blocks.new.items ≡ slice_set blocks.old.items spot.block (remove (block_at blocks.old.items spot.block) spot.index) }
    ensures room { vec_capacity blocks.new ≡ vec_capacity blocks.old }
{
    blocks[spot.block].remove(spot.index)
}

/// Keeps an empty block for later.
fn keep<T: Copy, W: Weigh<T>>(pool: &mut Vec<Block<T, W>>, block: Block<T, W>)
    requires none { block ≡ [] }
    requires empty { All (λ b. b ≡ []) pool.old.items }
    requires room { vec_len pool.old < vec_capacity pool.old }
    ensures empty { All (λ b. b ≡ []) pool.new.items }
    ensures pool { vec_len pool.new ≡ vec_len pool.old + 1 }
    ensures room { vec_capacity pool.new ≡ vec_capacity pool.old }
{
    pool.push_reserved(block);
}

/// Joins a block and the one after it where both are thin.
fn join_at<T: Copy, W: Weigh<T>>(
    blocks: &mut Vec<Block<T, W>>,
    pool: &mut Vec<Block<T, W>>,
    block: usize,
)
    requires filled { All IsFilled blocks.old.items }
    requires empty { All (λ b. b ≡ []) pool.old.items }
    requires pool { vec_len blocks.old + vec_len pool.old ≤ vec_capacity pool.old }
    ensures items { joined blocks.new.items ≡ joined blocks.old.items }
    ensures same { vec_len blocks.new ≡ vec_len blocks.old → blocks.new.items ≡ blocks.old.items }
    ensures filled { All IsFilled blocks.new.items }
    ensures empty { All (λ b. b ≡ []) pool.new.items }
    ensures room { (vec_capacity blocks.new ≡ vec_capacity blocks.old) × (vec_capacity pool.new ≡ vec_capacity pool.old) }
    ensures count { vec_len blocks.new + vec_len pool.new ≡ vec_len blocks.old + vec_len pool.old }
    ensures pool { vec_len pool.old ≤ vec_len pool.new }
    ensures pressure { pressure blocks.new.items + HALF * vec_len pool.old ≤ pressure blocks.old.items + HALF * vec_len pool.new }
{
    if block >= blocks.len() || block + 1 >= blocks.len() {
        return;
    }
    if blocks[block].len() + blocks[block + 1].len() > HALF {
        return;
    }
    let mut next = blocks.remove(block + 1);
    blocks[block].append(&mut next);
    keep(pool, next);
}

/// Takes the block at an index away where it has no item.
fn drop_empty<T: Copy, W: Weigh<T>>(
    blocks: &mut Vec<Block<T, W>>,
    pool: &mut Vec<Block<T, W>>,
    block: usize,
)
    requires within { block < length blocks.old.items }
    requires filled { (bs : List (List T)) × All IsFilled bs × (blocks.old.items ≡ slice_set bs block (block_at blocks.old.items block)) }
    requires room { length (block_at blocks.old.items block) < MOST }
    requires empty { All (λ b. b ≡ []) pool.old.items }
    requires pool { vec_len blocks.old + vec_len pool.old ≤ vec_capacity pool.old }
    ensures items { joined blocks.new.items ≡ joined blocks.old.items }
    ensures same { vec_len blocks.new ≡ vec_len blocks.old → blocks.new.items ≡ blocks.old.items }
    ensures filled { All IsFilled blocks.new.items }
    ensures empty { All (λ b. b ≡ []) pool.new.items }
    ensures room { (vec_capacity blocks.new ≡ vec_capacity blocks.old) × (vec_capacity pool.new ≡ vec_capacity pool.old) }
    ensures count { vec_len blocks.new + vec_len pool.new ≡ vec_len blocks.old + vec_len pool.old }
    ensures pool { vec_len pool.old ≤ vec_len pool.new }
    ensures pressure { pressure blocks.new.items + HALF * vec_len pool.old ≤ pressure blocks.old.items + HALF * vec_len pool.new }
{
    if blocks[block].len() > 0 {
        return;
    }
    let none = blocks.remove(block);
    keep(pool, none);
}

/// An item that was taken out, and which block has changed, if it is one alone.
#[derive(Clone, Copy)]
pub(crate) struct Taken<T> {
    pub(crate) item: T,
    pub(crate) changed: Option<usize>,
}

/// Tells of a block as the only one that has changed if there are as many blocks as before.
fn alone_at(block: usize, before: usize, after: usize) -> Option<usize>
    ensures { IfSome result (λ alone. (alone ≡ block) × (after ≡ before)) }
{
    if after == before { Some(block) } else { None }
}

/// Takes the item at an index out. Blocks that come to be thin are joined.
pub(crate) fn take_out<T: Copy, W: Weigh<T>>(
    blocks: &mut Vec<Block<T, W>>,
    pool: &mut Vec<Block<T, W>>,
    heads: &[Head],
    index: usize,
) -> Taken<T>
    requires heads { AreHeads W.weight heads.now blocks.old.items }
    requires within { index < length (joined blocks.old.items) }
    requires filled { All IsFilled blocks.old.items }
    requires empty { All (λ b. b ≡ []) pool.old.items }
    requires pool { vec_len blocks.old + vec_len pool.old ≤ vec_capacity pool.old }
    ensures item { Some result.item ≡ slice_get (joined blocks.old.items) index }
    ensures items { joined blocks.new.items ≡ remove (joined blocks.old.items) index }
    ensures changed { ChangesOnly result.changed blocks.old.items blocks.new.items }
    ensures filled { All IsFilled blocks.new.items }
    ensures empty { All (λ b. b ≡ []) pool.new.items }
    ensures room { (vec_capacity blocks.new ≡ vec_capacity blocks.old) × (vec_capacity pool.new ≡ vec_capacity pool.old) }
    ensures count { vec_len blocks.new + vec_len pool.new ≡ vec_len blocks.old + vec_len pool.old }
    ensures pool { vec_len pool.old ≤ vec_len pool.new }
    ensures pressure { pressure blocks.new.items + HALF * vec_len pool.old ≤ pressure blocks.old.items + HALF * vec_len pool.new }
{
    let spot = spot_of(heads, blocks.as_slice(), index);
    let count = blocks.len();
    let item = remove_in(blocks, spot);
    drop_empty(blocks, pool, spot.block);
    join_at(blocks, pool, spot.block);
    join_at(blocks, pool, spot.block.saturating_sub(1));
    Taken {
        item,
        changed: alone_at(spot.block, count, blocks.len()),
    }
}

/// Puts an item in the place of another one. Whether it counts something else: if not, the heads stay right.
pub(crate) fn replace<T: Copy, W: Weigh<T>>(
    blocks: &mut Vec<Block<T, W>>,
    spot: Spot,
    item: T,
) -> bool
    requires within { spot.block < length blocks.old.items }
    requires inside { spot.index < length (block_at blocks.old.items spot.block) }
    requires filled { All IsFilled blocks.old.items }
    ensures items { (at : ℕ) → IsSpot blocks.old.items at spot.block spot.index → joined blocks.new.items ≡ slice_set (joined blocks.old.items) at item }
    ensures len { length (joined blocks.new.items) ≡ length (joined blocks.old.items) }
    ensures changed { ChangesOnly (Some spot.block) blocks.old.items blocks.new.items }
    ensures heads { IsFalse result → (heads : List Head) → AreHeads W.weight heads blocks.old.items → AreHeads W.weight heads blocks.new.items }
    ensures filled { All IsFilled blocks.new.items }
    ensures room { vec_capacity blocks.new ≡ vec_capacity blocks.old }
    ensures count { vec_len blocks.new ≡ vec_len blocks.old }
    ensures pressure { pressure blocks.new.items ≡ pressure blocks.old.items }
{
    blocks[spot.block].set(spot.index, item)
}

/// How many empty blocks are enough for `n` more items beside so many blocks. Half a block of items is put in before a block is
/// parted, but for those that are full by half already.
fn enough_for(n: usize, blocks: usize) -> usize
    requires { blocks ≤ 2 ^ 20 }
    ensures bound { result ≤ 2 ^ 60 }
    ensures enough { (n ≤ result) ⊎ (n + HALF * (blocks + 1) ≤ HALF * result) }
{
    n.min(n / HALF + blocks + 2)
}

/// Has enough empty blocks in the pool for `n` more items.
///
/// # Errors
///
/// `NoMemory`: some may have been added.
pub(crate) fn supply<T: Copy, W: Weigh<T>>(
    alloc: Global,
    blocks: &mut Vec<Block<T, W>>,
    pool: &mut Vec<Block<T, W>>,
    heads: &mut Vec<Head>,
    n: usize,
) -> Result<(), NoMemory>
    requires filled { All IsFilled blocks.old.items }
    requires few { length (joined blocks.old.items) ≤ 2 ^ 20 }
    requires empty { All (λ b. b ≡ []) pool.old.items }
    requires both { HaveRoom (vec_len blocks.old + vec_len pool.old)
        (vec_capacity blocks.old) (vec_capacity pool.old) (vec_capacity heads.old) }
    ensures enough { OnOk result (n ≤ room_for blocks.new.items (vec_len pool.new)) }
    ensures blocks { blocks.new.items ≡ blocks.old.items }
    ensures heads { heads.new.items ≡ heads.old.items }
    ensures empty { All (λ b. b ≡ []) pool.new.items }
    ensures kept { vec_len pool.old ≤ vec_len pool.new }
    ensures both { HaveRoom (vec_len blocks.new + vec_len pool.new)
        (vec_capacity blocks.new) (vec_capacity pool.new) (vec_capacity heads.new) }
{
    let enough = enough_for(n, blocks.len());
    if pool.len() >= enough {
        return Ok(());
    }
    let all = blocks.len() + enough;
    blocks.reserve(enough)?;
    pool.reserve(all - pool.len())?;
    heads.reserve((all / GROUP + 1).saturating_sub(heads.len()))?;
    fill(alloc, pool, enough)
}

/// Fills the pool up to so many empty blocks, for which there is room.
///
/// # Errors
///
/// `NoMemory`: some may have been added.
fn fill<T: Copy, W: Weigh<T>>(
    alloc: Global,
    pool: &mut Vec<Block<T, W>>,
    n: usize,
) -> Result<(), NoMemory>
    requires empty { All (λ b. b ≡ []) pool.old.items }
    requires room { n ≤ vec_capacity pool.old }
    requires less { vec_len pool.old ≤ n }
    ensures full { OnOk result (vec_len pool.new ≡ n) }
    ensures few { vec_len pool.new ≤ n }
    ensures empty { All (λ b. b ≡ []) pool.new.items }
    ensures kept { vec_len pool.old ≤ vec_len pool.new }
    ensures room { vec_capacity pool.new ≡ vec_capacity pool.old }
{
    while pool.len() < n {
        let block = Block::new(alloc)?;
        pool.push_reserved(block);
    }
    Ok(())
}
