//! Lists for the tests.

use std::alloc::Global;
use stock_nums::lines::Lines;
use stock_nums::memory::NoMemory;

/// A list of these items.
pub fn lines_of<T: Copy>(alloc: Global, items: &[T]) -> Result<Lines<T>, NoMemory> {
    Ok(Lines::from_vec(items.to_vec(alloc)?))
}
