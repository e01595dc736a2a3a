//! Tables in a database, which are told: what a keeper over a database needs to say of them.
ghost use Rattle.std.specs.Prelude.{◌≡◌, false, OnOk, OnErr, IfOk, IfErr};
ghost use Rattle.stock_keeper.specs.Changed.{appended, published, Follows};
ghost use Rattle.stock_keeper.specs.Keeping.{Within, Makes, MayMake};
ghost use Rattle.stock_keeper.specs.Worths.{AreInOrder};
ghost use Rattle.stock_keeper.specs.declared.tables.Tables.{Tables};
ghost use Rattle.sqlite_tables.specs.Finding.{WasPrepared, WasRefused};
ghost use Rattle.sqlite_tables.specs.Sorted.{IsUnchanged, KnowsOrder, LeavesNoMore};
ghost use Rattle.sqlite_tables.specs.Stored.{TellsTables, MayLeaveTables};

use crate::{preparing, reading, renewing, writing};
use sqlite::{Alter, Connection, Error};
use std::alloc::Global;
use std::marker::Model;
use stock_keeper::changes::Changes;
use stock_keeper::tables::Tables;
use stock_nums::numbers::RecordNo;

/// A connection to a database with the tables of a ledger. It tells them where it is known for which tables the database stands:
/// where it made them itself, or found them and tested all that their schema does not see to.
#[derive(Drop)]
pub struct StoredTables<S: Alter> {
    conn: Connection<S>,
    ready: bool,
    // What was read as the tables were found, until it is loaded or they change.
    kept: Option<Tables>,
}

impl<S: Alter> Model for StoredTables<S> {
    ghost use Rattle.sqlite_tables.specs.Stored.{Base, base_code, IsStored};

    ghost Value = { Base S };

    ghost coded = { base_code S.code };

    ghost view = { λ s. record { conn = s.conn; ready = s.ready } };

    ghost invariant = { λ s. IsStored S.Store s.conn s.ready s.kept };
}

impl<S: Alter + Drop> StoredTables<S> {
    /// The tables of a database, which are told from then on. The connection is made anew, with nothing changed, and then as
    /// `prepared_in_order`.
    ///
    /// # Errors
    ///
    /// Those of `prepared_in_order`, and those of a connection that can't be made anew. The connection is given back, or its store where
    /// it could not be made anew.
    pub fn prepared(
        alloc: Global,
        conn: Connection<S>,
    ) -> Result<StoredTables<S>, (Error, Result<Connection<S>, S>)>
        ensures told { IfOk result (λ tables. WasPrepared S.Store conn tables) }
        ensures durable { IfOk result (λ tables. Within (TellsTables S.Store tables) (MayLeaveTables S.Store tables)) }
        ensures ended { IfErr result (λ e. IfOk e.1 (λ left. left.in_transaction ≡ false)) }
        ensures refused { IfErr result (λ e. IfOk e.1 (WasRefused S.Store conn)) }
        ensures left { IfErr result (λ e. IfErr e.1 (LeavesNoMore S.Store conn)) }
    {
        let conn = match renewing::renewed(alloc, conn) {
            Ok(conn) => conn,
            Err((error, store)) => return Err((error, Err(store))),
        };
        match StoredTables::prepared_in_order(alloc, conn) {
            Ok(tables) => Ok(tables),
            Err((error, conn)) => Err((error, Ok(conn))),
        }
    }
}

impl<S: Alter> StoredTables<S> {
    /// The tables of a database, which are told from then on, over a connection with nothing changed of which it is known that the rows
    /// of its tables stand by rowid. Where the database has nothing in it, the tables of an empty ledger are made in one transaction.
    /// Where it has exactly the tables of a ledger, and they can be read, those of version 1 become those of the version that is written
    /// now, in one transaction, and all else stays as it is.
    ///
    /// # Errors
    ///
    /// `NotADatabase` where the database has something in it, and not exactly these tables. `DatabaseCorrupt` where two of its worths have
    /// one spot, or its head has not one row. `IntegralValueOutOfRange` where a number of a worth is none that its field can have. All
    /// others are those of the database. It stays as it is, but a crash may leave all of the tables in one that had nothing in it, and
    /// those of a ledger as they would be. The connection is given back.
    pub fn prepared_in_order(
        alloc: Global,
        conn: Connection<S>,
    ) -> Result<StoredTables<S>, (Error, Connection<S>)>
        requires unchanged { IsUnchanged S.Store conn }
        requires order { KnowsOrder S.Store conn }
        ensures told { IfOk result (λ tables. WasPrepared S.Store conn tables) }
        ensures durable { IfOk result (λ tables. Within (TellsTables S.Store tables) (MayLeaveTables S.Store tables)) }
        ensures ended { IfErr result (λ e. e.1.in_transaction ≡ false) }
        ensures refused { IfErr result (λ e. WasRefused S.Store conn e.1) }
    {
        let mut conn = conn;
        match preparing::prepare(alloc, &mut conn) {
            Ok(kept) => Ok(StoredTables {
                conn,
                ready: true,
                kept,
            }),
            Err(error) => Err((error, conn)),
        }
    }

    /// What stands behind this connection. It tells nothing yet.
    pub fn over(conn: Connection<S>) -> StoredTables<S>
        requires { conn.in_transaction ≡ false }
        ensures { result ≡ record { conn = conn; ready = false } }
    {
        StoredTables {
            conn,
            ready: false,
            kept: None,
        }
    }

    /// The connection, for good.
    pub fn into_connection(self) -> Connection<S>
        ensures same { result ≡ self.conn }
        ensures ended { result.in_transaction ≡ false }
    {
        self.conn
    }

    /// Adds a record.
    ///
    /// # Errors
    ///
    /// Those of the database. The tables are as they were, but a crash may leave them with this record.
    pub fn append(&mut self, number: RecordNo, body: &[u8]) -> Result<(), Error>
        requires { (t : Tables) → TellsTables S.Store self.old t → Follows t number }
        ensures made { OnOk result (Makes (appended number body.now) (TellsTables S.Store self.old) (TellsTables S.Store self.new)) }
        ensures durable { OnOk result (Within (TellsTables S.Store self.new) (MayLeaveTables S.Store self.new)) }
        ensures tables_kept { OnErr result (Within (TellsTables S.Store self.old) (TellsTables S.Store self.new)) }
        ensures crash { OnErr result (MayMake (appended number body.now) (TellsTables S.Store self.old) (MayLeaveTables S.Store self.old)
            (MayLeaveTables S.Store self.new)) }
    {
        self.kept = None;
        writing::append(&mut self.conn, number, body)
    }

    /// Changes the worths, and says from how many records they are made now.
    ///
    /// # Errors
    ///
    /// Those of the database. The tables are as they were, but a crash may leave them with all of these changes.
    pub fn publish(&mut self, covered: RecordNo, changes: &Changes) -> Result<(), Error>
        ensures made { OnOk result (Makes (published covered changes.now) (TellsTables S.Store self.old) (TellsTables S.Store self.new)) }
        ensures durable { OnOk result (Within (TellsTables S.Store self.new) (MayLeaveTables S.Store self.new)) }
        ensures tables_kept { OnErr result (Within (TellsTables S.Store self.old) (TellsTables S.Store self.new)) }
        ensures crash { OnErr result (MayMake (published covered changes.now) (TellsTables S.Store self.old) (MayLeaveTables S.Store self.old)
            (MayLeaveTables S.Store self.new)) }
    {
        self.kept = None;
        writing::publish(&mut self.conn, covered, changes)
    }

    /// A copy of the tables. They stay as they are. Where they are told after it, or were before it and a crash may leave them then,
    /// they are what was copied.
    ///
    /// # Errors
    ///
    /// `QueryReturnedNoRows` where the head has no row. `IntegralValueOutOfRange` where a number of a worth is
    /// none that its field can have. `DatabaseCorrupt` where the worths come out of order, or two at one spot. All
    /// others are those of the database.
    pub fn load(&mut self, alloc: Global) -> Result<Tables, Error>
        ensures tables { IfOk result (λ copy. (t : Tables) → TellsTables S.Store self.new t → copy ≡ t) }
        ensures left { IfOk result (λ copy. (t : Tables) → TellsTables S.Store self.old t → MayLeaveTables S.Store self.new t → copy ≡ t) }
        ensures in_order { IfOk result (λ copy. AreInOrder copy.worths) }
        ensures tables_kept { Within (TellsTables S.Store self.old) (TellsTables S.Store self.new) }
        ensures crash { Within (MayLeaveTables S.Store self.old) (MayLeaveTables S.Store self.new) }
    {
        match self.kept.take() {
            Some(copy) => Ok(copy),
            None => reading::load(alloc, &mut self.conn),
        }
    }
}
