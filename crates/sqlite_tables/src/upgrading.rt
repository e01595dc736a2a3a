//! How a ledger's tables of an older version become those that are written now.
ghost use Rattle.std.specs.Prelude.{◌≡◌, false, ⊤, IfOk, OnOk, OnErr};
ghost use Rattle.sqlite.specs.State.{Survives};
ghost use Rattle.sqlite.specs.Held.{state};
ghost use Rattle.stock_keeper.specs.Changed.{upgraded};
ghost use Rattle.stock_keeper.specs.Worths.{AreInOrder};
ghost use Rattle.sqlite_tables.specs.Finding.{HasFoundBefore, IsUpgraded, LeavesUpgraded};
ghost use Rattle.sqlite_tables.specs.Turning.{HasTurned, HasKept, HasUndone};

use crate::{finding, recognizing, statements};
use sqlite::{Alter, Connection, Error, Transaction};
use std::alloc::Global;
use stock_keeper::tables::{Tables, VERSION};

/// Makes tables of version 1 those of the version that is written now, in the transaction that finds them. Their records and worths
/// stay, and how many are covered; and so do tables of each other version. Answers what they are then.
///
/// # Errors
///
/// `NotADatabase` where the schema is not exactly that of a ledger's database. `DatabaseCorrupt` where two worths stand at one spot, or
/// the head has not one row. `IntegralValueOutOfRange` where a number of a worth is none that its field can have. All
/// others are those of the database. It is as it was, but a crash may leave the tables of a ledger as they would be.
pub(crate) fn upgrade_ledger<S: Alter>(
    alloc: Global,
    conn: &mut Connection<S>,
) -> Result<Tables, Error>
    requires { conn.old.in_transaction ≡ false }
    ensures ended { conn.new.in_transaction ≡ false }
    ensures upgraded { IfOk result (IsUpgraded S.Store conn.old conn.new) }
    ensures in_order { IfOk result (λ copy. AreInOrder copy.worths) }
    ensures undone { OnErr result (HasUndone S.Store conn.old conn.new) }
    ensures crash { Survives (state S.Store conn.old) (state S.Store conn.new) (LeavesUpgraded S.Store conn.old) }
{
    let refusal = recognizing::refusal_of(alloc, conn.schema());
    let mut tx = conn.transaction();
    if let Some(error) = refusal {
        return Err(error);
    }
    let copy = upgrade_found(alloc, &mut tx)?;
    tx.commit()?;
    Ok(copy)
}

// The same, in a transaction under way, of a database whose schema is known.
fn upgrade_found<S: Alter>(alloc: Global, tx: &mut Transaction<'_, S>) -> Result<Tables, Error>
    ensures same_reference { tx.new.conn.ghost_name ≡ tx.old.conn.ghost_name }
    ensures found { IfOk result (HasFoundBefore S.Store tx.old.conn.now tx.new.conn.now) }
    ensures in_order { IfOk result (λ copy. AreInOrder copy.worths) }
    ensures turned { OnOk result (HasTurned S.Store (λ _. ⊤) upgraded tx.old.conn.now tx.new.conn.now) }
    ensures kept { HasKept S.Store tx.old.conn.now tx.new.conn.now }
    ensures survives { Survives (state S.Store tx.old.conn.now) (state S.Store tx.new.conn.now) (λ _. ⊥) }
{
    let found = finding::find_tables(alloc, tx)?;
    statements::upgrade(tx)?;
    Ok(as_written_now(found))
}

// The same tables, in the version that is written now where they are of the one before it.
fn as_written_now(tables: Tables) -> Tables
    ensures { result ≡ upgraded tables }
{
    let version = if tables.version == 1 {
        VERSION
    } else {
        tables.version
    };
    Tables {
        version,
        records: tables.records,
        covered: tables.covered,
        worths: tables.worths,
    }
}
