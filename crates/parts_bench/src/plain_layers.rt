//! The same takes from a plain queue, whose functions promise nothing.
use crate::lots::{TAKEN, lot};
use std::alloc::{AllocError, Global};
use std::collections::VecDeque;

#[derive(Clone, Copy)]
struct Layer {
    qty: u64,
    value: u64,
    taken: u64,
}

// What the first units of a layer cost, rounded down.
fn share(layer: Layer, first: u64) -> u64 {
    if layer.qty == 0 {
        return 0;
    }
    let product = u128::from(layer.value).wrapping_mul(u128::from(first));
    (product / u128::from(layer.qty) & u128::from(u64::MAX)) as u64
}

// What the next units of a layer cost.
fn cost_of(layer: Layer, qty: u64) -> u64 {
    let end = share(layer, layer.taken.wrapping_add(qty));
    end.wrapping_sub(share(layer, layer.taken))
}

// So many lots, one after another, and the units of all.
fn filled(alloc: Global, count: u32) -> Result<(VecDeque<Layer>, u64), AllocError> {
    let mut layers = VecDeque::new(alloc);
    let mut held: u64 = 0;
    for number in 0..count {
        let (qty, value) = lot(number);
        layers.push_back(Layer {
            qty,
            value,
            taken: 0,
        })?;
        held = held.wrapping_add(qty);
    }
    Ok((layers, held))
}

// Takes units from the layers in order, and tells what they cost.
fn take(layers: &mut VecDeque<Layer>, qty: u64) -> u64 {
    let mut cost: u64 = 0;
    let mut wanted = qty;
    while let Some(layer) = layers.front_mut() {
        let left = layer.qty.wrapping_sub(layer.taken);
        if wanted < left {
            cost = cost.wrapping_add(cost_of(*layer, wanted));
            layer.taken = layer.taken.wrapping_add(wanted);
            break;
        }
        cost = cost.wrapping_add(cost_of(*layer, left));
        wanted -= left;
        let _ = layers.pop_front();
    }
    cost
}

/// In how many takes all units leave, and what they cost together.
pub fn take_all(alloc: Global, count: u32) -> Result<(u64, u64), AllocError> {
    let (mut layers, mut held) = filled(alloc, count)?;
    let mut takes: u64 = 0;
    let mut cost: u64 = 0;
    while held > 0 {
        let qty = held.min(TAKEN);
        cost = cost.wrapping_add(take(&mut layers, qty));
        held -= qty;
        takes = takes.wrapping_add(1);
    }
    Ok((takes, cost))
}
