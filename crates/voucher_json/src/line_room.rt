//! Lists of lines that are kept for good, with no more room than they need.
ghost use Rattle.std.specs.Prelude.{◌≡◌, [], IfOk};

use std::alloc::Global;
use stock_nums::lines::Lines;
use stock_nums::memory::NoMemory;

/// The empty list, with room for this many lines. A first push with no room would make room for four.
pub fn with_room<L>(alloc: Global, count: usize) -> Result<Lines<L>, NoMemory>
    ensures { IfOk result (λ lines. lines ≡ []) }
{
    Ok(Lines::from_vec(Vec::with_capacity(alloc, count)?))
}
