//! Takes from `Layers`.
ghost use Rattle.std.specs.Prelude.{◌*◌, ◌≤◌, pos, unsigned_abs, IfOk};
ghost use Rattle.cost_formulas.specs.Held.{units_held, value_held};

use crate::lots::{TAKEN, lot};
use cost_formulas::layers::Layers;
use std::alloc::Global;
use stock_nums::memory::NoMemory;
use stock_nums::numbers::{Minor, Qty};

// So many lots, one after another.
fn filled(alloc: Global, count: u32) -> Result<Layers, NoMemory>
    ensures units { IfOk result (λ layers. units_held layers ≤ 150 * count) }
    ensures value { IfOk result (λ layers. value_held layers ≤ 20_000 * count) }
{
    let mut layers = Layers::new(alloc);
    for number in 0..count {
        let (qty, value) = lot(number);
        layers.push(Qty(qty), Minor(value as i64))?;
    }
    Ok(layers)
}

// Takes all units, a few at a time. Tells in how many takes, and what they cost together.
fn emptied(mut layers: Layers) -> (u64, i64)
    requires units { units_held layers ≤ 1_000_000_000_000_000_000 }
    requires value { value_held layers ≤ 300_000_000_000_000_000 }
{
    let mut takes = 0;
    let mut cost = 0;
    while layers.held().0 > 0 {
        let qty = layers.held().0.min(TAKEN);
        cost += layers.take(Qty(qty)).0;
        takes += 1;
    }
    (takes, cost)
}

/// In how many takes all units leave, and what they cost together.
pub fn take_all(alloc: Global, count: u32) -> Result<(u64, i64), NoMemory> {
    let layers = filled(alloc, count)?;
    Ok(emptied(layers))
}
