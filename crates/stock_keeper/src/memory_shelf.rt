//! The double of a shelf: one keeper in memory, which is handed out and put back.
ghost use Rattle.std.specs.Prelude.{◌≡◌, ◌↔◌, ◌⊎◌, Some, None, Err, IfOk, OnOk, OnErr, IsErr, IfSome};
ghost use Rattle.std.specs.Option.{option_copied};
ghost use Rattle.stock_io.specs.Counts.{NeverFalls};
ghost use Rattle.stock_io.specs.Memory.{NextFails};
ghost use Rattle.stock_keeper.specs.Memory.{new_shelf, restarted, after_opening, after_failed_opening, after_put_back};
ghost use Rattle.stock_keeper.specs.declared.fault.KeepFault.TheVariants as fault;

use crate::fault::KeepFault;
use crate::memory_keeper::MemKeeper;
use crate::opened_path::OpenedPath;
use crate::shelf::Shelf;
use std::marker::Model;
use stock_io::plan::FailurePlan;
use stock_nums::lines::Lines;

/// A shelf with one keeper in memory, of which chosen openings fail.
#[derive(Drop)]
pub struct MemShelf {
    // None while it is out.
    kept: Option<MemKeeper>,
    kept_faults: u64,
    opened: Option<OpenedPath>,
    openings: FailurePlan,
}

impl Model for MemShelf {
    ghost use Rattle.stock_keeper.specs.Memory.{PlannedShelf};

    ghost Value = { PlannedShelf };

    ghost view = { λ s. record { kept = s.kept; kept_faults = s.kept_faults; opened = s.opened; openings = s.openings } };
}

impl MemShelf {
    /// A shelf with this keeper. The openings whose numbers, counted from 1, stand in `failing` fail, and so
    /// does one while the keeper is out.
    pub fn new(kept: MemKeeper, failing: Lines<u64>) -> MemShelf
        ensures { result ≡ new_shelf kept failing }
    {
        MemShelf {
            kept: Some(kept),
            kept_faults: 0,
            opened: None,
            openings: FailurePlan::new(failing),
        }
    }

    /// The keeper as it was put in or put back. None exactly while it is out.
    pub fn kept(&self) -> Option<&MemKeeper>
        ensures { option_copied result ≡ self.now.kept }
    {
        self.kept.as_ref()
    }

    /// The keeper as it was put in or put back, for good. None exactly where it is out.
    pub fn into_kept(self) -> Option<MemKeeper>
        ensures { result ≡ self.kept }
    {
        self.kept
    }

    /// How many openings failed, as planned or with the keeper out. The count stays at `u64::MAX`.
    pub fn faults(&self) -> u64
        ensures { result ≡ self.now.openings.faults }
    {
        self.openings.faults()
    }

    /// How many faults the keeper had that was put back last. 0 before any.
    pub fn kept_faults(&self) -> u64
        ensures { result ≡ self.now.kept_faults }
    {
        self.kept_faults
    }
}

impl Shelf for MemShelf {
    type Kept = MemKeeper;

    ghost use Rattle.stock_keeper.specs.Memory.{IsOnShelf, shelf_plan};

    ghost tells = { λ s. IsOnShelf s.kept };

    ghost plan = { λ s. shelf_plan s.kept };

    ghost faults = { λ s. s.openings.faults };

    ghost kept_faults = { λ s. s.kept_faults };

    ghost opened = { λ s. s.opened };

    ghost openings = { λ s. s.openings.calls };

    fn open_keeper(&mut self, path: &str) -> Result<MemKeeper, KeepFault>
        ensures never_falls { NeverFalls self.old.openings.faults self.new.openings.faults }

        // It fails as planned, and with the keeper out. It takes no memory.
        ensures planned { IsErr result ↔ (NextFails self.old.openings ⊎ (self.old.kept ≡ None)) }
        ensures cause { OnErr result (result ≡ Err fault.Failed) }
        ensures handed_out { IfOk result (λ keeper. IfSome self.old.kept (λ kept. keeper ≡ restarted kept)) }
        ensures after_ok { OnOk result (self.new ≡ after_opening path.now self.old) }
        ensures after_failed { OnErr result (self.new ≡ after_failed_opening path.now self.old) }
    {
        self.opened = Some(OpenedPath::of(path));
        if self.openings.next_fails() {
            return Err(KeepFault::Failed);
        }
        match self.kept.take() {
            Some(keeper) => Ok(keeper.restarted()),
            None => {
                self.openings.count_fault();
                Err(KeepFault::Failed)
            }
        }
    }

    fn put_back(&mut self, kept: MemKeeper)
        ensures { self.new ≡ after_put_back self.old kept }
    {
        self.kept_faults = kept.faults();
        self.kept = Some(kept);
    }
}
