ghost use Rattle.std.specs.Prelude.{◌≡◌, ◌+◌, ◌<◌, ◌≤◌, pos, ◌≤ℤ◌};
ghost use Rattle.stock_nums.specs.FirstIn.{layer_units, layer_value};
ghost use Rattle.stock_nums.specs.Part.{part};
ghost use Rattle.cost_formulas.specs.Lots.{lot, lot_units, lot_value, untouched};

use std::marker::Model;
use stock_nums::numbers::{Minor, Qty};
use stock_nums::part::part;

/// Units that entered together, of which at least one is left. Contracts see the lot that entered, and
/// how many of its units were taken.
#[derive(Drop)]
pub(crate) struct Layer {
    // From 1 to 10^18.
    qty: Qty,
    // What all the units were worth together, from 0 to 3 * 10^17.
    value: Minor,
    // Below `qty`.
    taken: Qty,
}

impl Model for Layer {
    ghost use Rattle.std.specs.Prelude.{◌<◌, ◌≤◌, pos, ◌≤ℤ◌};
    ghost use Rattle.stock_nums.specs.FirstIn.{Layer};
    ghost use Rattle.cost_formulas.specs.Lots.{Lot, lot};

    ghost Value = { Layer Lot };

    ghost view = { λ layer. record { entered = lot layer.qty.0 layer.value.0; taken = layer.taken.0 } };

    ghost invariant = { λ layer. (layer.taken.0 < layer.qty.0) × (layer.qty.0 ≤ 1_000_000_000_000_000_000) × (pos 0 ≤ℤ layer.value.0) × (layer.value.0 ≤ℤ pos 300_000_000_000_000_000) };
}

impl Layer {
    /// A layer of which nothing was taken.
    pub(crate) fn new(qty: Qty, value: Minor) -> Layer
        requires some { 0 < qty.0 }
        requires units { qty.0 ≤ 1_000_000_000_000_000_000 }
        requires from_zero { pos 0 ≤ℤ value.0 }
        requires worth { value.0 ≤ℤ pos 300_000_000_000_000_000 }
        ensures { result ≡ untouched (lot qty.0 value.0) }
    {
        Layer {
            qty,
            value,
            taken: Qty(0),
        }
    }

    /// How many units are left, of which there is always one.
    pub(crate) fn left(&self) -> Qty
        ensures units { result.0 ≡ layer_units lot_units self.now }
        ensures some { 0 < result.0 }
    {
        Qty(self.qty.0 - self.taken.0)
    }

    /// What the units left are worth together.
    pub(crate) fn worth(&self) -> Minor
        ensures { result.0 ≡ pos (layer_value lot_units lot_value self.now) }
    {
        part(self.value, self.taken, self.left(), self.qty)
    }

    /// Takes some of the units left, but not all, and tells what they cost together.
    pub(crate) fn take(&mut self, qty: Qty) -> Minor
        requires { qty.0 < layer_units lot_units self.old }
        ensures cost { result.0 ≡ pos (part (lot_value self.old.entered) self.old.taken qty.0 (lot_units self.old.entered)) }
        ensures left { self.new ≡ record { entered = self.old.entered; taken = self.old.taken + qty.0 } }
    {
        let cost = part(self.value, self.taken, qty, self.qty);
        self.taken.0 += qty.0;
        cost
    }
}
