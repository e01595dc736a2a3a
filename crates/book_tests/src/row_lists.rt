//! Rows in blocks, beside rows in a slice.
ghost use Rattle.std.specs.Prelude.{◌≡◌, IfOk};

use shared_list::blocks::SharedBlocks;
use shared_list::list::SharedList;
use std::alloc::Global;
use stock_nums::entry::Row;
use stock_nums::lines::Lines;
use stock_nums::memory::NoMemory;

/// The rows in one block.
pub(crate) fn in_a_block(
    alloc: Global,
    rows: &SharedList<Row>,
) -> Result<SharedBlocks<Row>, NoMemory>
    ensures { IfOk result (λ list. list ≡ rows.now) }
{
    let mut blocks = Lines::new(alloc);
    blocks.push(rows.share()?)?;
    SharedBlocks::of(alloc, blocks)
}

/// Copies of the rows.
pub(crate) fn to_lines(alloc: Global, rows: &SharedBlocks<Row>) -> Result<Lines<Row>, NoMemory> {
    let mut lines = Lines::new(alloc);
    for row in rows.items() {
        lines.push(*row)?;
    }
    Ok(lines)
}

/// Copies of the rows, in one block.
pub(crate) fn to_block(alloc: Global, rows: &[Row]) -> Result<SharedBlocks<Row>, NoMemory> {
    let mut lines = Lines::new(alloc);
    for row in rows {
        lines.push(*row)?;
    }
    in_a_block(alloc, &SharedList::of(alloc, lines)?)
}
