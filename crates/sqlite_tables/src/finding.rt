//! What a database is before its tables are told: one with nothing in it, or one that stands for tables, as its rows show.
ghost use Rattle.std.specs.Prelude.{◌≡◌, ◌↔◌, ⊤, IsTrue, IfOk, OnOk};
ghost use Rattle.sqlite.specs.State.{Survives};
ghost use Rattle.sqlite.specs.Held.{state};
ghost use Rattle.stock_keeper.specs.Worths.{AreInOrder};
ghost use Rattle.sqlite_tables.specs.Finding.{HasAnswered, HasLooked, HasFound, IsOneHead, IsWholeHead};
ghost use Rattle.sqlite_tables.specs.Making.{no_schema};
ghost use Rattle.sqlite_tables.specs.Texts as texts;
ghost use Rattle.sqlite_tables.specs.Turning.{HasTurned, HasKept};

use crate::parsing::{Head, records_of, sorted_worths_of};
use crate::reading::record_rows;
use sqlite::{Alter, Error, ErrorCode, Row, Transaction};
use sqlite_schema::schema::Schema;
use std::alloc::Global;
use stock_keeper::tables::Tables;

/// Whether this is the schema of a database with nothing in it.
pub(crate) fn is_blank(schema: &Schema) -> bool
    ensures { IsTrue result ↔ (schema.now ≡ no_schema) }
{
    schema.tables.is_empty() && schema.indexes.is_empty() && schema.views.is_empty()
}

/// The tables of a database, which is refused where its worths or head can't be read. It stays as it is, and the transaction goes on.
/// One that has the schema of a ledger's database, and whose rows stand by rowid, stands for these tables then: what else they are is
/// seen to by the schema.
///
/// # Errors
///
/// `DatabaseCorrupt` where two worths have one spot, or the head has not one row with the id 1.
/// `IntegralValueOutOfRange` where a number of a worth is none that its field can have. All others are those of the database.
pub(crate) fn find_tables<S: Alter>(
    alloc: Global,
    tx: &mut Transaction<'_, S>,
) -> Result<Tables, Error>
    ensures same_reference { tx.new.conn.ghost_name ≡ tx.old.conn.ghost_name }
    ensures found { IfOk result (HasFound S.Store tx.old.conn.now tx.new.conn.now) }
    ensures in_order { IfOk result (λ found. AreInOrder found.worths) }
    ensures turned { OnOk result (HasTurned S.Store (λ _. ⊤) (λ t. t) tx.old.conn.now tx.new.conn.now) }
    ensures kept { HasKept S.Store tx.old.conn.now tx.new.conn.now }
    ensures survives { Survives (state S.Store tx.old.conn.now) (state S.Store tx.new.conn.now) (λ _. ⊥) }
{
    let worths = scanned_rows(tx)?;
    let heads = head_rows(tx)?;
    let records = record_rows(tx)?;
    let head = one_head(heads.as_slice())?;
    Ok(Tables {
        version: head.version,
        records: records_of(alloc, records.as_slice())?,
        covered: head.covered,
        worths: sorted_worths_of(alloc, worths.as_slice())?,
    })
}

// The rows of the worths as they stand: to sort them takes less than to find each by the index.
fn scanned_rows<S: Alter>(tx: &mut Transaction<'_, S>) -> Result<Vec<Row>, Error>
    ensures same_reference { tx.new.conn.ghost_name ≡ tx.old.conn.ghost_name }
    ensures answered { IfOk result (λ rows. HasAnswered S.Store texts.scan_worths tx.old.conn.now tx.new.conn.now rows.items) }
    ensures looked { OnOk result (HasLooked S.Store tx.old.conn.now tx.new.conn.now) }
    ensures turned { OnOk result (HasTurned S.Store (λ _. ⊤) (λ t. t) tx.old.conn.now tx.new.conn.now) }
    ensures kept { HasKept S.Store tx.old.conn.now tx.new.conn.now }
    ensures survives { Survives (state S.Store tx.old.conn.now) (state S.Store tx.new.conn.now) (λ _. ⊥) }
{
    tx.query_all("SELECT voucher, line, side, value, share FROM worths", &[])
}

// The rows of the head, with the id of each.
fn head_rows<S: Alter>(tx: &mut Transaction<'_, S>) -> Result<Vec<Row>, Error>
    ensures same_reference { tx.new.conn.ghost_name ≡ tx.old.conn.ghost_name }
    ensures answered { IfOk result (λ rows. HasAnswered S.Store texts.select_whole_head tx.old.conn.now tx.new.conn.now rows.items) }
    ensures looked { OnOk result (HasLooked S.Store tx.old.conn.now tx.new.conn.now) }
    ensures turned { OnOk result (HasTurned S.Store (λ _. ⊤) (λ t. t) tx.old.conn.now tx.new.conn.now) }
    ensures kept { HasKept S.Store tx.old.conn.now tx.new.conn.now }
    ensures survives { Survives (state S.Store tx.old.conn.now) (state S.Store tx.new.conn.now) (λ _. ⊥) }
{
    tx.query_all("SELECT id, version, covered FROM head ORDER BY id", &[])
}

// The head, if it has one row.
fn one_head(rows: &[Row]) -> Result<Head, Error>
    ensures { IfOk result (λ head. IsOneHead rows.now head.version head.covered) }
{
    match rows {
        [row] => whole_head_of(row),
        _ => Err(Error::SqliteFailure(ErrorCode::DatabaseCorrupt)),
    }
}

fn whole_head_of(row: &Row) -> Result<Head, Error>
    ensures { IfOk result (λ head. IsWholeHead row.now head.version head.covered) }
{
    let id: i64 = row.get(0)?;
    let version = row.get(1)?;
    let covered = row.get(2)?;
    if id != 1 {
        return Err(Error::SqliteFailure(ErrorCode::DatabaseCorrupt));
    }
    Ok(Head { version, covered })
}
