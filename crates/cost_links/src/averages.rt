//! What is held at the moving average.
ghost use Rattle.std.specs.Prelude.{◌≡◌, ◌+◌, ◌-◌, ◌<◌, ◌≤◌, pos, ◌≤ℤ◌, unsigned_abs, if◌then◌else◌, OnOk, OnErr, IfOk};
ghost use Rattle.stock_nums.specs.HalfUp.{half_up};
ghost use Rattle.stock_nums.specs.declared.entry.Key.{Key};
ghost use Rattle.stock_nums.specs.declared.limits.TheConstants.{MAX_UNITS, MAX_VALUE};
ghost use Rattle.stock_model.specs.Enough.{is_same_key};
ghost use Rattle.cost_links.specs.Tables.{Held, held_of};

use cost_formulas::average::Average;
use std::alloc::Global;
use std::collections::BTreeMap;
use stock_nums::entry::Key;
use stock_nums::memory::NoMemory;
use stock_nums::numbers::{Minor, Qty};

/// What is held of each item in each warehouse, at the moving average (IAS 2.27). Contracts see it by
/// `held_of`.
#[derive(Drop)]
pub(crate) struct Averages {
    by_key: BTreeMap<Key, Average>,
}

impl Averages {
    /// Nothing held. It takes no memory.
    pub(crate) fn new(alloc: Global) -> Averages
        ensures units { (key : Key) → (held_of result key).units ≡ 0 }
        ensures value { (key : Key) → (held_of result key).value ≡ 0 }
    {
        Averages {
            by_key: BTreeMap::new(alloc),
        }
    }

    // What is held under the key.
    fn held(&self, key: &Key) -> Average
        ensures units { result.qty.0 ≡ (held_of self.now key.now).units }
        ensures value { result.value.0 ≡ pos ((held_of self.now key.now).value) }
    {
        match self.by_key.get(key) {
            Some(held) => *held,
            None => Average::new(),
        }
    }

    // Has this held under the key. For want of memory nothing changes.
    fn put(&mut self, key: Key, held: Average) -> Result<(), NoMemory>
        ensures put { OnOk result ((other : Key) → held_of self.new other ≡ (if is_same_key key other then record { units = held.qty.0; value = unsigned_abs held.value.0 } else held_of self.old other)) }
        ensures unchanged { OnErr result ((other : Key) → held_of self.new other ≡ held_of self.old other) }
    {
        self.by_key.insert(key, held)?;
        Ok(())
    }

    /// Adds units that enter, and what they are worth together. For want of memory nothing changes.
    pub(crate) fn add(&mut self, key: Key, qty: Qty, value: Minor) -> Result<(), NoMemory>
        requires some { 0 < qty.0 }
        requires worth { pos 0 ≤ℤ value.0 }
        requires units_fit { (held_of self.old key).units + qty.0 ≤ MAX_UNITS }
        requires value_fits { (held_of self.old key).value + unsigned_abs value.0 ≤ MAX_VALUE }
        ensures added { OnOk result ((other : Key) → held_of self.new other ≡ (if is_same_key key other then record { units = (held_of self.old key).units + qty.0; value = (held_of self.old key).value + unsigned_abs value.0 } else held_of self.old other)) }
        ensures unchanged { OnErr result ((other : Key) → held_of self.new other ≡ held_of self.old other) }
    {
        let mut held = self.held(&key);
        held.add(qty, value);
        self.put(key, held)
    }

    /// Takes units that leave, and tells what they cost together. For want of memory nothing changes.
    pub(crate) fn take(&mut self, key: Key, qty: Qty) -> Result<Minor, NoMemory>
        requires some { 0 < qty.0 }
        requires held { qty.0 ≤ (held_of self.old key).units }
        ensures cost { IfOk result (λ cost. cost.0 ≡ pos (half_up (held_of self.old key).value qty.0 (held_of self.old key).units)) }
        ensures left { OnOk result ((other : Key) → held_of self.new other ≡ (if is_same_key key other then record { units = (held_of self.old key).units - qty.0; value = (held_of self.old key).value - half_up (held_of self.old key).value qty.0 (held_of self.old key).units } else held_of self.old other)) }
        ensures unchanged { OnErr result ((other : Key) → held_of self.new other ≡ held_of self.old other) }
    {
        let mut held = self.held(&key);
        let cost = held.take(qty);
        self.put(key, held)?;
        Ok(cost)
    }
}
