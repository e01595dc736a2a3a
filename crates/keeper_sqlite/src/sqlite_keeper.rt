//! A keeper over a database. It tells its tables where it has made them, or has found them and read them: what they are then is what
//! the statements of their texts mean, while the disk returns what was written and nobody else writes the database.
ghost use Rattle.std.specs.Prelude.{◌≡◌, false, true, Err, IfOk, IfErr, OnOk, OnErr};
ghost use Rattle.stock_io.specs.Counts.{NeverFalls, raised};
ghost use Rattle.stock_keeper.specs.Changed.{appended, published, Follows};
ghost use Rattle.stock_keeper.specs.Keeping.{Within, Makes, MayMake};
ghost use Rattle.stock_keeper.specs.Worths.{AreInOrder};
ghost use Rattle.stock_keeper.specs.declared.fault.KeepFault.TheVariants as fault;
ghost use Rattle.stock_keeper.specs.declared.tables.Tables.{Tables};
ghost use Rattle.sqlite_tables.specs.Finding.{WasPrepared, WasRefused};
ghost use Rattle.sqlite_tables.specs.Sorted.{IsUnchanged, KnowsOrder, LeavesNoMore};
ghost use Rattle.sqlite_tables.specs.Stored.{TellsTables, MayLeaveTables};

use crate::refusing::{fault_of, refused};
use sqlite::{Alter, Connection};
use sqlite_tables::stored_tables::StoredTables;
use std::alloc::Global;
use stock_keeper::changes::Changes;
use stock_keeper::fault::KeepFault;
use stock_keeper::keeper::Keeper;
use stock_keeper::tables::Tables;
use stock_nums::numbers::RecordNo;

/// A keeper over a database, with a transaction for each call, whose commit is the last step of a change. Each refusal of the
/// database other than want of memory is a fault. It tells its tables once it is prepared, as long as the disk is clean and the
/// connection open, and what a crash may leave is what the database's own contract says that one may. It has no plan.
#[derive(Drop)]
pub struct SqliteKeeper<S: Alter> {
    alloc: Global,
    tables: StoredTables<S>,
    faults: u64,
}

impl<S: Alter + Drop> SqliteKeeper<S> {
    /// A keeper that had no fault yet, over the tables of a database, which it tells from then on. The connection is made anew, with
    /// nothing changed, and then as `prepared_in_order`.
    ///
    /// # Errors
    ///
    /// Those of `prepared_in_order`, and those of a connection that can't be made anew. The connection is given back, or its store where
    /// it could not be made anew.
    pub fn prepared(
        alloc: Global,
        conn: Connection<S>,
    ) -> Result<SqliteKeeper<S>, (KeepFault, Result<Connection<S>, S>)>
        ensures fresh { IfOk result (λ keeper. keeper.faults ≡ 0) }
        ensures told { IfOk result (λ keeper. WasPrepared S.Store conn keeper.tables) }
        ensures durable { IfOk result (λ keeper. Within (TellsTables S.Store keeper.tables) (MayLeaveTables S.Store keeper.tables)) }
        ensures ended { IfErr result (λ e. IfOk e.1 (λ left. left.in_transaction ≡ false)) }
        ensures refused { IfErr result (λ e. IfOk e.1 (WasRefused S.Store conn)) }
        ensures left { IfErr result (λ e. IfErr e.1 (LeavesNoMore S.Store conn)) }
    {
        match StoredTables::prepared(alloc, conn) {
            Ok(tables) => Ok(SqliteKeeper {
                alloc,
                tables,
                faults: 0,
            }),
            Err((error, left)) => Err((fault_of(error), left)),
        }
    }
}

impl<S: Alter> SqliteKeeper<S> {
    /// A keeper that had no fault yet, over the tables of a database, which it tells from then on. Nothing of the database is changed
    /// yet, and it is known that the rows of its tables stand by rowid. Where the database has nothing in it, the tables of an empty
    /// ledger are made in one transaction. Where it has exactly the tables of a ledger, and they can be read, those of version 1 become
    /// those of the version that is written now, in one transaction, and all else stays as it is.
    ///
    /// # Errors
    ///
    /// `Failed` where the database has something in it, and not exactly the tables of a ledger, where these can't be read, or where the
    /// database refuses else. `NoMemory` for want of memory. The database stays as it is, but a crash may leave all of the tables in one
    /// that had nothing in it, and those of a ledger as they would be. The connection is given back.
    pub fn prepared_in_order(
        alloc: Global,
        conn: Connection<S>,
    ) -> Result<SqliteKeeper<S>, (KeepFault, Connection<S>)>
        requires unchanged { IsUnchanged S.Store conn }
        requires order { KnowsOrder S.Store conn }
        ensures fresh { IfOk result (λ keeper. keeper.faults ≡ 0) }
        ensures told { IfOk result (λ keeper. WasPrepared S.Store conn keeper.tables) }
        ensures durable { IfOk result (λ keeper. Within (TellsTables S.Store keeper.tables) (MayLeaveTables S.Store keeper.tables)) }
        ensures ended { IfErr result (λ e. e.1.in_transaction ≡ false) }
        ensures refused { IfErr result (λ e. WasRefused S.Store conn e.1) }
    {
        match StoredTables::prepared_in_order(alloc, conn) {
            Ok(tables) => Ok(SqliteKeeper {
                alloc,
                tables,
                faults: 0,
            }),
            Err((error, conn)) => Err((fault_of(error), conn)),
        }
    }

    /// A keeper over this database, which had no fault yet. It tells nothing.
    pub fn over(alloc: Global, conn: Connection<S>) -> SqliteKeeper<S>
        requires { conn.in_transaction ≡ false }
        ensures fresh { result.faults ≡ 0 }
        ensures tables { result.tables ≡ record { conn = conn; ready = false } }
    {
        SqliteKeeper {
            alloc,
            tables: StoredTables::over(conn),
            faults: 0,
        }
    }

    /// The database, for good.
    pub fn into_connection(self) -> Connection<S>
        ensures same { result ≡ self.tables.conn }
        ensures ended { result.in_transaction ≡ false }
    {
        self.tables.into_connection()
    }

    /// How many calls the database refused for another cause than want of memory. The count stays at `u64::MAX`.
    pub fn faults(&self) -> u64
        ensures { result ≡ self.now.faults }
    {
        self.faults
    }
}

impl<S: Alter> Keeper for SqliteKeeper<S> {
    ghost use Rattle.std.specs.Prelude.{None};
    ghost use Rattle.sqlite_tables.specs.Lasting.{stays_left};

    ghost tells = { λ k t. TellsTables S.Store k.tables t };

    ghost may_leave = { λ k t. MayLeaveTables S.Store k.tables t };

    ghost faults = { λ k. k.faults };

    ghost plan = { λ _. None };

    ghost calls = { λ _. 0 };

    // Where it tells no tables, this is its own clause that records are handed to it.
    fn is_lasting(&self) -> bool
        ensures { result ≡ true }
    {
        true
    }

    fn append(&mut self, number: RecordNo, body: &[u8]) -> Result<(), KeepFault>
        requires { (t : Tables) → TellsTables S.Store self.old.tables t → Follows t number }
        ensures made { OnOk result
            (Makes (appended number body.now) (TellsTables S.Store self.old.tables) (TellsTables S.Store self.new.tables)) }
        ensures durable { OnOk result (Within (TellsTables S.Store self.new.tables) (MayLeaveTables S.Store self.new.tables)) }
        ensures tables_kept { OnErr result (Within (TellsTables S.Store self.old.tables) (TellsTables S.Store self.new.tables)) }
        ensures crash { OnErr result (MayMake (appended number body.now) (TellsTables S.Store self.old.tables)
            (MayLeaveTables S.Store self.old.tables) (MayLeaveTables S.Store self.new.tables)) }
        ensures faults_kept { OnOk result (self.new.faults ≡ self.old.faults) }
        ensures fault { result ≡ Err fault.Failed → self.new.faults ≡ raised self.old.faults }
        ensures free { result ≡ Err fault.NoMemory → self.new.faults ≡ self.old.faults }
        ensures never_falls { NeverFalls self.old.faults self.new.faults }
    {
        match self.tables.append(number, body) {
            Ok(()) => Ok(()),
            Err(error) => Err(refused(error, &mut self.faults)),
        }
    }

    fn publish(&mut self, covered: RecordNo, changes: &Changes) -> Result<(), KeepFault>
        ensures made { OnOk result
            (Makes (published covered changes.now) (TellsTables S.Store self.old.tables) (TellsTables S.Store self.new.tables)) }
        ensures durable { OnOk result (Within (TellsTables S.Store self.new.tables) (MayLeaveTables S.Store self.new.tables)) }
        ensures tables_kept { OnErr result (Within (TellsTables S.Store self.old.tables) (TellsTables S.Store self.new.tables)) }
        ensures crash { OnErr result (MayMake (published covered changes.now) (TellsTables S.Store self.old.tables)
            (MayLeaveTables S.Store self.old.tables) (MayLeaveTables S.Store self.new.tables)) }
        ensures faults_kept { OnOk result (self.new.faults ≡ self.old.faults) }
        ensures fault { result ≡ Err fault.Failed → self.new.faults ≡ raised self.old.faults }
        ensures free { result ≡ Err fault.NoMemory → self.new.faults ≡ self.old.faults }
        ensures never_falls { NeverFalls self.old.faults self.new.faults }
    {
        match self.tables.publish(covered, changes) {
            Ok(()) => Ok(()),
            Err(error) => Err(refused(error, &mut self.faults)),
        }
    }

    fn load(&mut self) -> Result<Tables, KeepFault>
        ensures tables { IfOk result (λ copy. (t : Tables) → TellsTables S.Store self.new.tables t → copy ≡ t) }
        ensures left { IfOk result (λ copy. (t : Tables) → TellsTables S.Store self.old.tables t → MayLeaveTables S.Store self.new.tables t
            → copy ≡ t) }
        ensures in_order { IfOk result (λ copy. AreInOrder copy.worths) }
        ensures tables_kept { Within (TellsTables S.Store self.old.tables) (TellsTables S.Store self.new.tables) }
        ensures crash { Within (MayLeaveTables S.Store self.old.tables) (MayLeaveTables S.Store self.new.tables) }
        ensures faults_kept { OnOk result (self.new.faults ≡ self.old.faults) }
        ensures fault { result ≡ Err fault.Failed → self.new.faults ≡ raised self.old.faults }
        ensures free { result ≡ Err fault.NoMemory → self.new.faults ≡ self.old.faults }
        ensures never_falls { NeverFalls self.old.faults self.new.faults }
    {
        match self.tables.load(self.alloc) {
            Ok(tables) => Ok(tables),
            Err(error) => Err(refused(error, &mut self.faults)),
        }
    }

    ghost stays = { λ k t told. (told.0, stays_left _ S.Store.stays k.tables.conn t told.1) };
}
