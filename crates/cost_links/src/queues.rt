//! What is held first in, first out.
ghost use Rattle.std.specs.Prelude.{◌≡◌, ◌+◌, ◌<◌, ◌≤◌, [], ◌∷◌, ◌++◌, pos, ◌≤ℤ◌, unsigned_abs, if◌then◌else◌, OnOk};
ghost use Rattle.stock_nums.specs.declared.entry.Key.{Key};
ghost use Rattle.stock_nums.specs.declared.limits.TheConstants.{MAX_UNITS, MAX_VALUE};
ghost use Rattle.cost_formulas.specs.Held.{units_held, value_held, layers_cost, layers_after};
ghost use Rattle.cost_formulas.specs.Lots.{lot, untouched};
ghost use Rattle.stock_model.specs.Enough.{is_same_key};
ghost use Rattle.cost_links.specs.Tables.{layers_of};

use cost_formulas::layers::Layers;
use std::alloc::Global;
use std::collections::BTreeMap;
use stock_nums::entry::Key;
use stock_nums::memory::NoMemory;
use stock_nums::numbers::{Minor, Qty};

/// What is held of each item in each warehouse, first in, first out (IAS 2.27). Contracts see it by
/// `layers_of`.
#[derive(Drop)]
pub(crate) struct Queues {
    by_key: BTreeMap<Key, Layers>,
}

impl Queues {
    /// Nothing held. It takes no memory.
    pub(crate) fn new(alloc: Global) -> Queues
        ensures { (key : Key) → layers_of result key ≡ [] }
    {
        Queues {
            by_key: BTreeMap::new(alloc),
        }
    }

    /// Adds units that enter, and what they are worth together, after those before.
    pub(crate) fn push(
        &mut self,
        alloc: Global,
        key: Key,
        qty: Qty,
        value: Minor,
    ) -> Result<(), NoMemory>
        requires some { 0 < qty.0 }
        requires worth { pos 0 ≤ℤ value.0 }
        requires units_fit { units_held (layers_of self.old key) + qty.0 ≤ MAX_UNITS }
        requires value_fits { value_held (layers_of self.old key) + unsigned_abs value.0 ≤ MAX_VALUE }
        ensures added { OnOk result ((other : Key) → layers_of self.new other ≡ (if is_same_key key other then layers_of self.old key ++ untouched (lot qty.0 value.0) ∷ [] else layers_of self.old other)) }
    {
        if let Some(held) = self.by_key.get_mut(&key) {
            return held.push(qty, value);
        }
        let mut held = Layers::new(alloc);
        held.push(qty, value)?;
        self.by_key.insert(key, held)?;
        Ok(())
    }

    /// Takes units, those that entered first before all others, and tells what they cost together. It takes no
    /// memory.
    pub(crate) fn take(&mut self, key: Key, qty: Qty) -> Minor
        requires some { 0 < qty.0 }
        requires held { qty.0 ≤ units_held (layers_of self.old key) }
        ensures cost { result.0 ≡ pos (layers_cost (layers_of self.old key) qty.0) }
        ensures left { (other : Key) → layers_of self.new other ≡ (if is_same_key key other then layers_after (layers_of self.old key) qty.0 else layers_of self.old other) }
    {
        match self.by_key.get_mut(&key) {
            Some(held) => held.take(qty),
            None => Minor(0),
        }
    }
}
