//! The rows of movements in blocks, of which those that did not change are blocks of rows that were made before.
ghost use Rattle.std.specs.Prelude.{◌≡◌, ◌-◌, ◌≤◌, IsTrue, length, map, take, drop, IfSome, IfOk, OnOk};
ghost use Rattle.std.specs.List.{flat_map};
ghost use Rattle.repost_spread.specs.Movements.{slots_of};
ghost use Rattle.repost_build.specs.Rows.{slot_row, IsRunUntil};

use crate::slot_rows::{is_run, push_rows};
use repost_spread::movements::Movements;
use shared_list::blocks::SharedBlocks;
use shared_list::list::SharedList;
use std::alloc::Global;
use stock_nums::entry::Row;
use stock_nums::lines::Lines;
use stock_nums::memory::NoMemory;
use stock_nums::place::Place;

/// The most rows of a block that is made.
const MOST: usize = 512;
/// The fewest rows of a block that is shared: shorter ones are joined with their neighbours.
const FEWEST: usize = 256;

/// The rows of all movements, in posting order. They share the blocks of rows that were made before, where these are the same, but for
/// short ones. It reads each movement once, and copies those of the other blocks. The only error is want of memory.
pub(crate) fn rows_beside(
    alloc: Global,
    movements: &Movements,
    before: &[SharedList<Row>],
) -> Result<SharedBlocks<Row>, NoMemory>
    ensures { IfOk result (λ rows. rows ≡ map slot_row (slots_of movements.now)) }
{
    let mut blocks = Lines::new(alloc);
    let mut made = 0;
    for block in before {
        made = push_where_same(alloc, &mut blocks, movements, made, block)?;
    }
    push_between(alloc, &mut blocks, movements, made, movements.len())?;
    SharedBlocks::of(alloc, blocks)
}

// Adds a block where its rows are those of movements after the first so many, of which the blocks are, and before it those of the
// movements between. It answers of how many movements the blocks are then.
fn push_where_same(
    alloc: Global,
    blocks: &mut Lines<SharedList<Row>>,
    movements: &Movements,
    made: usize,
    block: &SharedList<Row>,
) -> Result<usize, NoMemory>
    requires within { made ≤ length (slots_of movements.now) }
    requires rows { flat_map (λ block. block) blocks.old ≡ map slot_row (take made (slots_of movements.now)) }
    ensures within { IfOk result (λ count. count ≤ length (slots_of movements.now)) }
    ensures rows { IfOk result (λ count. flat_map (λ block. block) blocks.new ≡ map slot_row (take count (slots_of movements.now))) }
{
    let rows = block.as_slice();
    let Some(end) = end_of(movements, made, rows) else {
        return Ok(made);
    };
    push_between(alloc, blocks, movements, made, end - rows.len())?;
    blocks.push(block.share()?)?;
    Ok(end)
}

// Where these are rows of movements after the first so many, and are not few: how many movements stand up to the last of them.
fn end_of(movements: &Movements, made: usize, rows: &[Row]) -> Option<usize>
    requires { made ≤ length (slots_of movements.now) }
    ensures { IfSome result (λ end. IsRunUntil (slots_of movements.now) made end rows.now) }
{
    if rows.len() < FEWEST {
        return None;
    }
    let last = rows.last()?;
    let end = count_until(movements, &last.entry.place);
    let start = end.checked_sub(rows.len())?;
    if start >= made && are_rows(movements, end, rows) {
        Some(end)
    } else {
        None
    }
}

// How many movements stand at the place or before it.
fn count_until(movements: &Movements, place: &Place) -> usize
    ensures { result ≤ length (slots_of movements.now) }
{
    let mut low = 0;
    let mut high = movements.len();
    while low < high {
        let middle = low + (high - low) / 2;
        match movements.run_from(middle).first() {
            Some(slot) if slot.entry.place > *place => high = middle,
            _ => low = middle + 1,
        }
    }
    low
}

// Whether these are the rows of the movements up to an index.
fn are_rows(movements: &Movements, end: usize, rows: &[Row]) -> bool
    requires as_many { length rows.now ≤ end }
    requires within { end ≤ length (slots_of movements.now) }
    ensures { IsTrue result → rows.now ≡ map slot_row (take (length rows.now) (drop (end - length rows.now) (slots_of movements.now))) }
{
    let start = end - rows.len();
    let mut index = start;
    while index < end {
        let run = movements.run_from(index);
        let count = run.len().min(end - index);
        let passed = index - start;
        if !is_run(&run[..count], &rows[passed..passed + count]) {
            return false;
        }
        index += count;
    }
    true
}

// Adds blocks of the movements from the one index to the other.
fn push_between(
    alloc: Global,
    blocks: &mut Lines<SharedList<Row>>,
    movements: &Movements,
    from: usize,
    upto: usize,
) -> Result<(), NoMemory>
    requires order { from ≤ upto }
    requires within { upto ≤ length (slots_of movements.now) }
    requires rows { flat_map (λ block. block) blocks.old ≡ map slot_row (take from (slots_of movements.now)) }
    ensures { OnOk result (flat_map (λ block. block) blocks.new ≡ map slot_row (take upto (slots_of movements.now))) }
{
    let mut index = from;
    while index < upto {
        let next = index + MOST.min(upto - index);
        blocks.push(block_of(alloc, movements, index, next)?)?;
        index = next;
    }
    Ok(())
}

// A block of the movements from the one index to the other.
fn block_of(
    alloc: Global,
    movements: &Movements,
    from: usize,
    upto: usize,
) -> Result<SharedList<Row>, NoMemory>
    requires order { from ≤ upto }
    requires within { upto ≤ length (slots_of movements.now) }
    ensures { IfOk result (λ block. block ≡ map slot_row (take (upto - from) (drop from (slots_of movements.now)))) }
{
    let mut rows = Lines::from_vec(Vec::with_capacity(alloc, upto - from)?);
    let mut index = from;
    while index < upto {
        let run = movements.run_from(index);
        let count = run.len().min(upto - index);
        push_rows(&mut rows, &run[..count])?;
        index += count;
    }
    SharedList::of(alloc, rows)
}
