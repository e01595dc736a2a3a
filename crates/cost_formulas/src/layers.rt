//! First in, first out (IAS 2.27).

ghost use Rattle.std.specs.Prelude.{◌≡◌, ◌+◌, ◌<◌, ◌≤◌, ℕ, List, [], ◌∷◌, ◌++◌, pos, ◌+ℤ◌, ◌≤ℤ◌, unsigned_abs, OnOk, OnErr, All, sum_by};
ghost use Rattle.stock_nums.specs.FirstIn.{next_cost, layers_left};
ghost use Rattle.cost_formulas.specs.Lots.{Lot, lot, lot_units, lot_value, untouched};
ghost use Rattle.cost_formulas.specs.Held.{units_held, value_held, layers_cost, layers_after, IsWithinFirst};

use crate::layer::Layer;
use std::alloc::Global;
use std::collections::VecDeque;
use std::marker::Model;
use stock_nums::memory::NoMemory;
use stock_nums::numbers::{Minor, Qty};

/// The units held of one item in one warehouse, in the order in which they entered. Units leave it first in,
/// first out (IAS 2.27). Contracts see the layers that have units left: the lot that entered, whole, and
/// how many of its units were taken.
#[derive(Drop)]
pub struct Layers {
    layers: VecDeque<Layer>,
    held: Qty,
}

impl Model for Layers {
    ghost use Rattle.std.specs.Prelude.{List};
    ghost use Rattle.stock_nums.specs.FirstIn.{Layer};
    ghost use Rattle.cost_formulas.specs.Lots.{Lot};
    ghost use Rattle.cost_formulas.specs.Held.{IsHeld};

    ghost Value = { List (Layer Lot) };

    ghost view = { λ it. it.layers.items };

    ghost invariant = { λ it. IsHeld it.layers.items it.held.0 };
}

impl Layers {
    /// Nothing held. It takes no memory.
    pub fn new(alloc: Global) -> Layers
        ensures { result ≡ [] }
    {
        Layers {
            layers: VecDeque::new(alloc),
            held: Qty(0),
        }
    }

    /// How many units are held, from 0 to 10^18. It takes no memory, and goes over no layers.
    pub fn held(&self) -> Qty
        ensures { result.0 ≡ units_held self.now }
    {
        self.held
    }

    /// Adds units that enter together, and what they are worth together, after those before. For want of
    /// memory nothing changes.
    pub fn push(&mut self, qty: Qty, value: Minor) -> Result<(), NoMemory>
        requires some { 0 < qty.0 }
        requires worth { pos 0 ≤ℤ value.0 }
        requires units_fit { units_held self.old + qty.0 ≤ 1_000_000_000_000_000_000 }
        requires value_fits { value_held self.old + unsigned_abs value.0 ≤ 300_000_000_000_000_000 }
        ensures added { OnOk result (self.new ≡ self.old ++ untouched (lot qty.0 value.0) ∷ []) }
        ensures last_in { OnOk result ((entered : List Lot) (before : ℕ) → self.old ≡ layers_left lot_units entered before → before ≤ sum_by lot_units entered → self.new ≡ layers_left lot_units (entered ++ lot qty.0 value.0 ∷ []) before) }
        ensures units { OnOk result (units_held self.new ≡ units_held self.old + qty.0) }
        ensures worth { OnOk result (value_held self.new ≡ value_held self.old + unsigned_abs value.0) }
        ensures unchanged { OnErr result (self.new ≡ self.old) }
    {
        self.layers.push_back(Layer::new(qty, value))?;
        self.held.0 += qty.0;
        Ok(())
    }

    /// Takes units, those that entered first before all others, and tells what they cost together. However
    /// the units before them were taken, all together cost what the first units of all that entered do.
    /// It takes no memory.
    pub fn take(&mut self, qty: Qty) -> Minor
        requires some { 0 < qty.0 }
        requires held { qty.0 ≤ units_held self.old }
        ensures cost { (entered : List Lot) (before : ℕ) → All (λ e. 0 < lot_units e) entered → self.old ≡ layers_left lot_units entered before → result.0 ≡ pos (next_cost lot_units lot_value entered before qty.0) }
        ensures left { (entered : List Lot) (before : ℕ) → self.old ≡ layers_left lot_units entered before → self.new ≡ layers_left lot_units entered (before + qty.0) }
        ensures cost_by_layers { result.0 ≡ pos (layers_cost self.old qty.0) }
        ensures left_by_layers { self.new ≡ layers_after self.old qty.0 }
        ensures worth { (pos (value_held self.new) +ℤ result.0) ≡ pos (value_held self.old) }
        ensures units { units_held self.new + qty.0 ≡ units_held self.old }
    {
        self.held.0 -= qty.0;
        take_from(&mut self.layers, qty)
    }
}

// Takes units from the layers in order.
fn take_from(layers: &mut VecDeque<Layer>, qty: Qty) -> Minor
    requires { value_held layers.old.items ≤ 300_000_000_000_000_000 }
    ensures cost { result.0 ≡ pos (layers_cost layers.old.items qty.0) }
    ensures left { layers.new.items ≡ layers_after layers.old.items qty.0 }
{
    let (whole, rest) = take_whole(layers, qty);
    let cut = take_of_first(layers, rest);
    Minor(whole.0 + cut.0)
}

// Takes whole layers as long as no more than so many units are taken. Tells what they cost, and how many
// units of the next layer are still to be taken.
fn take_whole(layers: &mut VecDeque<Layer>, qty: Qty) -> (Minor, Qty)
    requires { value_held layers.old.items ≤ 300_000_000_000_000_000 }
    ensures cost { (result.0.0 +ℤ pos (layers_cost layers.new.items result.1.0)) ≡ pos (layers_cost layers.old.items qty.0) }
    ensures left { layers_after layers.new.items result.1.0 ≡ layers_after layers.old.items qty.0 }
    ensures rest { IsWithinFirst layers.new.items result.1.0 }
    ensures from_zero { pos 0 ≤ℤ result.0.0 }
{
    let mut cost = 0;
    let mut wanted = qty.0;
    while let Some(layer) = layers.front() {
        let left = layer.left();
        if wanted < left.0 {
            break;
        }
        cost += layer.worth().0;
        wanted -= left.0;
        let _ = layers.pop_front();
    }
    (Minor(cost), Qty(wanted))
}

// Takes some of the units of the first layer, but not all.
fn take_of_first(layers: &mut VecDeque<Layer>, qty: Qty) -> Minor
    requires { IsWithinFirst layers.old.items qty.0 }
    ensures cost { result.0 ≡ pos (layers_cost layers.old.items qty.0) }
    ensures left { layers.new.items ≡ layers_after layers.old.items qty.0 }
{
    match layers.front_mut() {
        Some(layer) => layer.take(qty),
        None => Minor(0),
    }
}
