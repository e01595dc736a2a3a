//! A keeper that keeps nothing.
ghost use Rattle.std.specs.Prelude.{◌≡◌};
ghost use Rattle.stock_io.specs.Counts.{raised};

use crate::changes::Changes;
use crate::fault::KeepFault;
use crate::keeper::Keeper;
use crate::tables::Tables;
use std::alloc::Global;
use stock_nums::numbers::RecordNo;

/// A keeper that keeps nothing, for a ledger that lasts no longer than its run. No call fails. It tells no tables, so nothing is
/// claimed of them, and what it loads are new ones.
#[derive(Drop)]
pub struct Nowhere {
    alloc: Global,
    calls: u64,
}

impl Nowhere {
    /// A keeper that was not called yet. It takes no memory.
    pub fn new(alloc: Global) -> Nowhere
        ensures { result.calls ≡ 0 }
    {
        Nowhere { alloc, calls: 0 }
    }

    // Counts a call. The count stays at `u64::MAX`.
    fn count(&mut self)
        ensures { self.new.calls ≡ raised self.old.calls }
    {
        self.calls = self.calls.saturating_add(1);
    }
}

impl Keeper for Nowhere {
    ghost use Rattle.std.specs.Prelude.{Some, []};

    ghost tells = { λ _ _. ⊥ };

    ghost may_leave = { λ _ _. ⊥ };

    ghost faults = { λ _. 0 };

    ghost plan = { λ _. Some [] };

    ghost calls = { λ k. k.calls };

    fn is_lasting(&self) -> bool {
        false
    }

    fn append(&mut self, _number: RecordNo, _body: &[u8]) -> Result<(), KeepFault> {
        self.count();
        Ok(())
    }

    fn publish(&mut self, _covered: RecordNo, _changes: &Changes) -> Result<(), KeepFault> {
        self.count();
        Ok(())
    }

    fn load(&mut self) -> Result<Tables, KeepFault> {
        self.count();
        Ok(Tables::new(self.alloc))
    }

    ghost stays = { λ _ _ told. told };
}
