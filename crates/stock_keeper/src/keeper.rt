//! Keepers, which hold the tables of a ledger.
ghost use Rattle.std.specs.Prelude.{◌≡◌, ℕ, false, List, Option, Err, OnOk, OnErr, IfOk, OnSome};
ghost use Rattle.stock_io.specs.Counts.{Rose, NeverFalls, raised};
ghost use Rattle.stock_keeper.specs.Changed.{appended, published, Follows, CoversMore, CoversRecords};
ghost use Rattle.stock_keeper.specs.Keeping.{Within, Makes, MayMake, FailsAsPlanned, HoldsOfNone};
ghost use Rattle.stock_keeper.specs.Worths.{AreInOrder};
ghost use Rattle.stock_keeper.specs.declared.fault.KeepFault.TheVariants.{Failed};
ghost use Rattle.stock_keeper.specs.declared.tables.Tables.{Tables};

use crate::changes::Changes;
use crate::fault::KeepFault;
use crate::tables::Tables;
use stock_nums::numbers::RecordNo;

/// What holds tables. A change is made whole or not at all, also where the system stops within a call:
/// that is as if the call had failed there.
pub trait Keeper {
    // The tables, where the keeper tells them. Where it tells none, nothing is claimed of them.
    ghost tells: { Self → Tables → Type 0 };

    // The tables that a crash now may leave.
    ghost may_leave: { Self → Tables → Type 0 };

    // How many faults there were.
    ghost faults: { Self → ℕ };

    // The numbers of the calls that fail, counted from 1 over all three methods, where the keeper tells them.
    ghost plan: { Self → Option (List ℕ) };

    // How many calls there were, where a plan is told.
    ghost calls: { Self → ℕ };

    /// Whether anything is kept at all. Where nothing is, `append` does not look at the body that it is handed.
    fn is_lasting(&self) -> bool
        ensures none_told { result ≡ false → HoldsOfNone (tells self.now) }
        ensures none_left { result ≡ false → HoldsOfNone (may_leave self.now) };

    /// Adds a record at the end. Its number follows that of the last one, and the first has number 1.
    ///
    /// # Errors
    ///
    /// `Failed` where the keeper failed: a fault was counted. `NoMemory` for want of memory. Either leaves the
    /// tables, but a crash may leave them with this record.
    fn append(&mut self, number: RecordNo, body: &[u8]) -> Result<(), KeepFault>
        requires { (t : Tables) → tells self.old t → Follows t number }
        ensures made { OnOk result (Makes (appended number body.now) (tells self.old) (tells self.new)) }
        ensures durable { OnOk result (Within (tells self.new) (may_leave self.new)) }
        ensures tables_kept { OnErr result (Within (tells self.old) (tells self.new)) }
        ensures crash { OnErr result
            (MayMake (appended number body.now) (tells self.old) (may_leave self.old) (may_leave self.new)) }
        ensures faults_kept { OnOk result (faults self.new ≡ faults self.old) }
        ensures never_falls { NeverFalls (faults self.old) (faults self.new) }
        ensures cause { result ≡ Err Failed → Rose (faults self.old) (faults self.new) }
        ensures planned { FailsAsPlanned (plan self.old) (calls self.old) result }
        ensures counted { OnSome (plan self.old) (calls self.new ≡ raised (calls self.old)) }
        ensures plan_kept { plan self.new ≡ plan self.old };

    /// Changes the worths, and says from how many records they are made now: from more than before, and from
    /// no more than there are.
    ///
    /// # Errors
    ///
    /// `Failed` where the keeper failed: a fault was counted. `NoMemory` for want of memory. Either leaves the
    /// tables, but a crash may leave them with all of these changes.
    fn publish(&mut self, covered: RecordNo, changes: &Changes) -> Result<(), KeepFault>
        requires more { (t : Tables) → tells self.old t → CoversMore t covered }
        requires within { (t : Tables) → tells self.old t → CoversRecords t covered }
        ensures made { OnOk result (Makes (published covered changes.now) (tells self.old) (tells self.new)) }
        ensures durable { OnOk result (Within (tells self.new) (may_leave self.new)) }
        ensures tables_kept { OnErr result (Within (tells self.old) (tells self.new)) }
        ensures crash { OnErr result
            (MayMake (published covered changes.now) (tells self.old) (may_leave self.old) (may_leave self.new)) }
        ensures faults_kept { OnOk result (faults self.new ≡ faults self.old) }
        ensures never_falls { NeverFalls (faults self.old) (faults self.new) }
        ensures cause { result ≡ Err Failed → Rose (faults self.old) (faults self.new) }
        ensures planned { FailsAsPlanned (plan self.old) (calls self.old) result }
        ensures counted { OnSome (plan self.old) (calls self.new ≡ raised (calls self.old)) }
        ensures plan_kept { plan self.new ≡ plan self.old };

    /// A copy of the tables. They stay as they are. Their worths stand by record, line and side, each spot once. A disk may lie
    /// while it is read: only what is told after the load, or may be left by a crash then, says that it did not.
    ///
    /// # Errors
    ///
    /// `Failed` where the keeper failed: a fault was counted. `NoMemory` for want of memory.
    fn load(&mut self) -> Result<Tables, KeepFault>
        ensures tables { IfOk result (λ copy. (t : Tables) → tells self.new t → copy ≡ t) }
        ensures left { IfOk result (λ copy. (t : Tables) → tells self.old t → may_leave self.new t → copy ≡ t) }
        ensures in_order { IfOk result (λ copy. AreInOrder copy.worths) }
        ensures tables_kept { Within (tells self.old) (tells self.new) }
        ensures crash { Within (may_leave self.old) (may_leave self.new) }
        ensures faults_kept { OnOk result (faults self.new ≡ faults self.old) }
        ensures never_falls { NeverFalls (faults self.old) (faults self.new) }
        ensures cause { result ≡ Err Failed → Rose (faults self.old) (faults self.new) }
        ensures planned { FailsAsPlanned (plan self.old) (calls self.old) result }
        ensures counted { OnSome (plan self.old) (calls self.new ≡ raised (calls self.old)) }
        ensures plan_kept { plan self.new ≡ plan self.old };

    // A crash may leave the tables as they are.
    ghost stays: { (keeper : Self) (t : Tables) → tells keeper t → may_leave keeper t };
}
