//! What is read of a ledger's tables: all of them, in one transaction. Nothing else can write between the three reads.
ghost use Rattle.std.specs.Prelude.{◌≡◌, ⊤, false, map, OnOk, IfOk};
ghost use Rattle.sqlite.specs.State.{Survives};
ghost use Rattle.sqlite.specs.Held.{state};
ghost use Rattle.stock_keeper.specs.Worths.{AreInOrder};
ghost use Rattle.sqlite_tables.specs.Rows.{record_row, worth_row, head_row as row_of_head};
ghost use Rattle.sqlite_tables.specs.Finding.{HasAnswered, HasLooked};
ghost use Rattle.sqlite_tables.specs.Reading.{HasStayed, HasShown, HasRead};
ghost use Rattle.sqlite_tables.specs.Texts as texts;
ghost use Rattle.sqlite_tables.specs.Turning.{HasTurned, HasKept, HasUndone};

use crate::parsing::{head_of, records_of, worths_of};
use sqlite::{Alter, Connection, Error, Row, Transaction};
use std::alloc::Global;
use stock_keeper::tables::Tables;

/// The tables as they are stored. They stay as they are.
///
/// # Errors
///
/// `QueryReturnedNoRows` where the head has no row. `IntegralValueOutOfRange` where a number of a worth is
/// none that its field can have. `DatabaseCorrupt` where the worths come out of order, or two at one spot. All
/// others are those of the database.
pub fn load<S: Alter>(alloc: Global, conn: &mut Connection<S>) -> Result<Tables, Error>
    requires { conn.old.in_transaction ≡ false }
    ensures ended { conn.new.in_transaction ≡ false }
    ensures loaded { IfOk result (HasRead S.Store conn.old conn.new) }
    ensures in_order { IfOk result (λ copy. AreInOrder copy.worths) }
    ensures undone { HasUndone S.Store conn.old conn.new }
    ensures survives { Survives (state S.Store conn.old) (state S.Store conn.new) (λ _. ⊥) }
{
    let mut tx = conn.transaction();
    let copy = read(alloc, &mut tx);
    tx.rollback();
    copy
}

// All of the tables.
fn read<S: Alter>(alloc: Global, tx: &mut Transaction<'_, S>) -> Result<Tables, Error>
    ensures same_reference { tx.new.conn.ghost_name ≡ tx.old.conn.ghost_name }
    ensures read { IfOk result (HasRead S.Store tx.old.conn.now tx.new.conn.now) }
    ensures in_order { IfOk result (λ copy. AreInOrder copy.worths) }
    ensures kept { HasKept S.Store tx.old.conn.now tx.new.conn.now }
    ensures survives { Survives (state S.Store tx.old.conn.now) (state S.Store tx.new.conn.now) (λ _. ⊥) }
{
    let records = record_rows(tx)?;
    let worths = worth_rows(tx)?;
    let row = head_row(tx)?;
    let head = head_of(&row)?;
    Ok(Tables {
        version: head.version,
        records: records_of(alloc, records.as_slice())?,
        covered: head.covered,
        worths: worths_of(alloc, worths.as_slice())?,
    })
}

/// The rows of the records, by number.
pub(crate) fn record_rows<S: Alter>(tx: &mut Transaction<'_, S>) -> Result<Vec<Row>, Error>
    ensures same_reference { tx.new.conn.ghost_name ≡ tx.old.conn.ghost_name }
    ensures turned { OnOk result (HasTurned S.Store (λ _. ⊤) (λ t. t) tx.old.conn.now tx.new.conn.now) }
    ensures shown { IfOk result (λ rows. HasShown S.Store (λ t. map record_row t.records) tx.old.conn.now tx.new.conn.now rows.items) }
    ensures stayed { OnOk result (HasStayed S.Store tx.old.conn.now tx.new.conn.now) }
    ensures kept { HasKept S.Store tx.old.conn.now tx.new.conn.now }
    ensures survives { Survives (state S.Store tx.old.conn.now) (state S.Store tx.new.conn.now) (λ _. ⊥) }
{
    tx.query_all("SELECT no, body FROM records ORDER BY no", &[])
}

/// The rows of the worths, by record, line and side.
pub(crate) fn worth_rows<S: Alter>(tx: &mut Transaction<'_, S>) -> Result<Vec<Row>, Error>
    ensures same_reference { tx.new.conn.ghost_name ≡ tx.old.conn.ghost_name }
    ensures answered { IfOk result (λ rows. HasAnswered S.Store texts.select_worths tx.old.conn.now tx.new.conn.now rows.items) }
    ensures looked { OnOk result (HasLooked S.Store tx.old.conn.now tx.new.conn.now) }
    ensures turned { OnOk result (HasTurned S.Store (λ _. ⊤) (λ t. t) tx.old.conn.now tx.new.conn.now) }
    ensures shown { IfOk result (λ rows. HasShown S.Store (λ t. map worth_row t.worths) tx.old.conn.now tx.new.conn.now rows.items) }
    ensures stayed { OnOk result (HasStayed S.Store tx.old.conn.now tx.new.conn.now) }
    ensures kept { HasKept S.Store tx.old.conn.now tx.new.conn.now }
    ensures survives { Survives (state S.Store tx.old.conn.now) (state S.Store tx.new.conn.now) (λ _. ⊥) }
{
    tx.query_all(
        "SELECT voucher, line, side, value, share FROM worths ORDER BY voucher, line, side",
        &[],
    )
}

// The row of the head.
fn head_row<S: Alter>(tx: &mut Transaction<'_, S>) -> Result<Row, Error>
    ensures same_reference { tx.new.conn.ghost_name ≡ tx.old.conn.ghost_name }
    ensures shown { IfOk result (HasShown S.Store row_of_head tx.old.conn.now tx.new.conn.now) }
    ensures stayed { OnOk result (HasStayed S.Store tx.old.conn.now tx.new.conn.now) }
    ensures kept { HasKept S.Store tx.old.conn.now tx.new.conn.now }
    ensures survives { Survives (state S.Store tx.old.conn.now) (state S.Store tx.new.conn.now) (λ _. ⊥) }
{
    tx.query_row("SELECT version, covered FROM head ORDER BY id", &[])
}
