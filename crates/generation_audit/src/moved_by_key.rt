//! Plain sums over the rows of each item in each warehouse.
ghost use Rattle.std.specs.Prelude.{◌≡◌, pos, if◌then◌else◌, OnOk};
ghost use Rattle.stock_nums.specs.declared.entry.Key.{Key};
ghost use Rattle.stock_model.specs.Enough.{entry_key, is_same_key};
ghost use Rattle.generation_audit.specs.KeySums.{nothing, with_row, cost_of, HasRoom, HasCost};
ghost use Rattle.generation_audit.specs.MovedSums.{moved_at};

use crate::moved::Moved;
use std::alloc::Global;
use std::collections::BTreeMap;
use stock_model::shortages::entry_key;
use stock_nums::entry::{Entry, Key, Row};
use stock_nums::memory::NoMemory;
use stock_nums::numbers::Minor;

/// What entered and left of each item in each warehouse. Contracts see it by `moved_at`.
#[derive(Drop)]
pub(crate) struct MovedByKey {
    by_key: BTreeMap<Key, Moved>,
}

impl MovedByKey {
    /// Nothing. It takes no memory.
    pub(crate) fn new(alloc: Global) -> MovedByKey
        ensures { (key : Key) → moved_at result key ≡ nothing }
    {
        MovedByKey {
            by_key: BTreeMap::new(alloc),
        }
    }

    /// Adds a row.
    pub(crate) fn add(&mut self, alloc: Global, row: &Row) -> Result<(), NoMemory>
        requires { HasRoom (moved_at self.old (entry_key row.now.entry)) row.now }
        ensures { OnOk result ((other : Key) → moved_at self.new other
            ≡ (if is_same_key (entry_key row.now.entry) other then with_row (moved_at self.old (entry_key row.now.entry)) row.now else moved_at self.old other)) }
    {
        let key = entry_key(&row.entry);
        if let Some(moved) = self.by_key.get_mut(&key) {
            return moved.add(row);
        }
        let mut moved = Moved::new(alloc);
        moved.add(row)?;
        self.by_key.insert(key, moved)?;
        Ok(())
    }

    /// What the units of a movement that leaves cost by its item's formula. It takes no memory.
    pub(crate) fn cost(&self, entry: &Entry) -> Minor
        requires { HasCost entry.now.method (moved_at self.now (entry_key entry.now)) entry.now.qty.0 }
        ensures { result.0 ≡ pos (cost_of entry.now.method (moved_at self.now (entry_key entry.now)) entry.now.qty.0) }
    {
        match self.by_key.get(&entry_key(entry)) {
            Some(moved) => moved.cost(entry.method, entry.qty),
            None => Minor(0),
        }
    }
}
