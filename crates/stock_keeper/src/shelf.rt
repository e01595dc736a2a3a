//! Shelves, which hand keepers out and take them back.
ghost use Rattle.std.specs.Prelude.{◌≡◌, ℕ, List, Option, Some, Err, OnOk, IfOk, IfSome, OnSome};
ghost use Rattle.stock_io.specs.Counts.{Rose, NeverFalls, raised};
ghost use Rattle.stock_keeper.specs.Keeping.{Within, TellSame};
ghost use Rattle.stock_keeper.specs.declared.fault.KeepFault.TheVariants.{Failed};
ghost use Rattle.stock_keeper.specs.declared.tables.Tables.{Tables};

use crate::fault::KeepFault;
use crate::keeper::Keeper;

/// Where keepers come from, and where they go to.
pub trait Shelf {
    /// A keeper that is handed out. It can't be dropped where only this is known of it, so that each goes back.
    type Kept: Keeper + Send;

    // The tables of the keeper that is handed out next, where the shelf tells them.
    ghost tells: { Self → Tables → Type 0 };

    // The numbers of the calls of that keeper that fail, where the shelf tells them.
    ghost plan: { Self → Option (List ℕ) };

    // How many faults the shelf had.
    ghost faults: { Self → ℕ };

    // How many faults the keeper had that was put back last, and 0 before any.
    ghost kept_faults: { Self → ℕ };

    // The bytes of the path at which a keeper was asked for last, once one was, and how often one was.
    ghost opened: { Self → Option (List ℕ) };

    ghost openings: { Self → ℕ };

    /// Hands out the keeper at this path. It had no fault yet, a crash leaves just its tables, and where the
    /// shelf tells a plan the keeper has it and was not called.
    ///
    /// # Errors
    ///
    /// `Failed` where the shelf failed: a fault was counted. `NoMemory` for want of memory.
    fn open_keeper(&mut self, path: &str) -> Result<Self::Kept, KeepFault>
        ensures tables { IfOk result (λ keeper. TellSame (tells self.old) (Self.Kept.tells keeper)) }
        ensures settled { IfOk result (λ keeper. Within (Self.Kept.tells keeper) (Self.Kept.may_leave keeper)) }
        ensures fresh { IfOk result (λ keeper. Self.Kept.faults keeper ≡ 0) }
        ensures plan { IfOk result (λ keeper.
            IfSome (plan self.old) (λ numbers. Self.Kept.plan keeper ≡ Some numbers)) }
        ensures uncalled { IfOk result (λ keeper. OnSome (plan self.old) (Self.Kept.calls keeper ≡ 0)) }
        ensures tables_kept { Within (tells self.old) (tells self.new) }
        ensures plan_kept { IfSome (plan self.new) (λ numbers. plan self.old ≡ Some numbers) }
        ensures kept_faults_kept { kept_faults self.new ≡ kept_faults self.old }
        ensures opened { opened self.new ≡ Some path.now }
        ensures counted { openings self.new ≡ raised (openings self.old) }
        ensures faults_kept { OnOk result (faults self.new ≡ faults self.old) }
        ensures never_falls { NeverFalls (faults self.old) (faults self.new) }
        ensures cause { result ≡ Err Failed → Rose (faults self.old) (faults self.new) };

    /// Takes a keeper back. It can't be refused.
    fn put_back(&mut self, kept: Self::Kept)
        ensures tables { Within (Self.Kept.tells kept) (tells self.new) }
        ensures plan { IfSome (plan self.new) (λ numbers. Self.Kept.plan kept ≡ Some numbers) }
        ensures kept_faults { kept_faults self.new ≡ Self.Kept.faults kept }
        ensures opened_kept { opened self.new ≡ opened self.old }
        ensures openings_kept { openings self.new ≡ openings self.old }
        ensures faults_kept { faults self.new ≡ faults self.old };
}
