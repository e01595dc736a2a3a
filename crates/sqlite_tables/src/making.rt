//! How a ledger's tables are made, in a database with nothing in it.
ghost use Rattle.std.specs.Prelude.{◌≡◌, false, OnOk, OnErr};
ghost use Rattle.sqlite.specs.State.{Survives};
ghost use Rattle.sqlite.specs.Held.{state};
ghost use Rattle.sqlite_tables.specs.Making.{HasLed, HasMadeTables, LeavesNew, IsBlank, HasRecords, HasWorths, HasHead, IsNew};
ghost use Rattle.sqlite_tables.specs.Turning.{HasKept, HasUndone};

use sqlite::{Alter, Connection, Error, Transaction};

/// Makes the tables, and the one row of the head, in one transaction.
///
/// # Errors
///
/// Those of the database. There are no tables then, but a crash may leave them all.
pub fn make_tables<S: Alter>(conn: &mut Connection<S>) -> Result<(), Error>
    requires { conn.old.in_transaction ≡ false }
    ensures ended { conn.new.in_transaction ≡ false }
    ensures made { OnOk result (HasMadeTables S.Store conn.old conn.new) }
    ensures undone { OnErr result (HasUndone S.Store conn.old conn.new) }
    ensures crash { Survives (state S.Store conn.old) (state S.Store conn.new) (LeavesNew (state S.Store conn.old)) }
{
    let mut tx = conn.transaction();
    make_all(&mut tx)?;
    tx.commit()?;
    Ok(())
}

// Makes the tables one after another.
fn make_all<S: Alter>(tx: &mut Transaction<'_, S>) -> Result<(), Error>
    ensures same_reference { tx.new.conn.ghost_name ≡ tx.old.conn.ghost_name }
    ensures led { OnOk result (HasLed S.Store IsBlank IsNew tx.old.conn.now tx.new.conn.now) }
    ensures kept { HasKept S.Store tx.old.conn.now tx.new.conn.now }
    ensures survives { Survives (state S.Store tx.old.conn.now) (state S.Store tx.new.conn.now) (λ _. ⊥) }
{
    make_records(tx)?;
    make_worths(tx)?;
    make_head(tx)?;
    begin_head(tx)?;
    Ok(())
}

fn make_records<S: Alter>(tx: &mut Transaction<'_, S>) -> Result<usize, Error>
    ensures same_reference { tx.new.conn.ghost_name ≡ tx.old.conn.ghost_name }
    ensures led { OnOk result (HasLed S.Store IsBlank HasRecords tx.old.conn.now tx.new.conn.now) }
    ensures kept { HasKept S.Store tx.old.conn.now tx.new.conn.now }
    ensures survives { Survives (state S.Store tx.old.conn.now) (state S.Store tx.new.conn.now) (λ _. ⊥) }
{
    tx.execute(
        "CREATE TABLE records(no INTEGER PRIMARY KEY, body BLOB NOT NULL) STRICT",
        &[],
    )
}

fn make_worths<S: Alter>(tx: &mut Transaction<'_, S>) -> Result<usize, Error>
    ensures same_reference { tx.new.conn.ghost_name ≡ tx.old.conn.ghost_name }
    ensures led { OnOk result (HasLed S.Store HasRecords HasWorths tx.old.conn.now tx.new.conn.now) }
    ensures kept { HasKept S.Store tx.old.conn.now tx.new.conn.now }
    ensures survives { Survives (state S.Store tx.old.conn.now) (state S.Store tx.new.conn.now) (λ _. ⊥) }
{
    tx.execute(
        "CREATE TABLE worths(voucher INTEGER NOT NULL, line INTEGER NOT NULL, side INTEGER NOT NULL, value INTEGER NOT NULL, share INTEGER NOT NULL, PRIMARY KEY(voucher, line, side)) STRICT",
        &[],
    )
}

fn make_head<S: Alter>(tx: &mut Transaction<'_, S>) -> Result<usize, Error>
    ensures same_reference { tx.new.conn.ghost_name ≡ tx.old.conn.ghost_name }
    ensures led { OnOk result (HasLed S.Store HasWorths HasHead tx.old.conn.now tx.new.conn.now) }
    ensures kept { HasKept S.Store tx.old.conn.now tx.new.conn.now }
    ensures survives { Survives (state S.Store tx.old.conn.now) (state S.Store tx.new.conn.now) (λ _. ⊥) }
{
    tx.execute(
        "CREATE TABLE head(id INTEGER PRIMARY KEY CHECK(id = 1), version INTEGER NOT NULL, covered INTEGER NOT NULL) STRICT",
        &[],
    )
}

fn begin_head<S: Alter>(tx: &mut Transaction<'_, S>) -> Result<usize, Error>
    ensures same_reference { tx.new.conn.ghost_name ≡ tx.old.conn.ghost_name }
    ensures led { OnOk result (HasLed S.Store HasHead IsNew tx.old.conn.now tx.new.conn.now) }
    ensures kept { HasKept S.Store tx.old.conn.now tx.new.conn.now }
    ensures survives { Survives (state S.Store tx.old.conn.now) (state S.Store tx.new.conn.now) (λ _. ⊥) }
{
    tx.execute(
        "INSERT INTO head(id, version, covered) VALUES(1, 2, 0)",
        &[],
    )
}
