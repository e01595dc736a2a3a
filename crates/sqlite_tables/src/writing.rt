//! The changes of a ledger's tables, each in one transaction, whose commit is the last step.
ghost use Rattle.std.specs.Prelude.{◌≡◌, false, ⊤, OnOk, OnErr};
ghost use Rattle.sqlite.specs.State.{Survives};
ghost use Rattle.sqlite.specs.Held.{state};
ghost use Rattle.stock_keeper.specs.Changed.{appended, published, Follows};
ghost use Rattle.sqlite_tables.specs.Turning.{HasTurned, HasGone, HasKept, HasMade, HasUndone, IsTried, with_worths, without_spots};

use crate::statements;
use sqlite::{Alter, Connection, Error, Transaction};
use stock_keeper::changes::{Changes, SpotWorth};
use stock_nums::numbers::RecordNo;
use stock_nums::place::Spot;

/// Adds a record.
///
/// # Errors
///
/// Those of the database. The tables are as they were, but a crash may leave them with this record.
pub fn append<S: Alter>(
    conn: &mut Connection<S>,
    number: RecordNo,
    body: &[u8],
) -> Result<(), Error>
    requires { conn.old.in_transaction ≡ false }
    ensures ended { conn.new.in_transaction ≡ false }
    ensures made { OnOk result (HasMade S.Store (λ t. Follows t number) (appended number body.now) conn.old conn.new) }
    ensures undone { OnErr result (HasUndone S.Store conn.old conn.new) }
    ensures crash { Survives (state S.Store conn.old) (state S.Store conn.new)
        (IsTried (λ t. Follows t number) (appended number body.now) (state S.Store conn.old)) }
{
    let mut tx = conn.transaction();
    statements::insert_record(&mut tx, number, body)?;
    tx.commit()?;
    Ok(())
}

/// Changes the worths, and says from how many records they are made now, in one transaction.
///
/// # Errors
///
/// Those of the database. The tables are as they were, but a crash may leave them with all of these changes.
pub fn publish<S: Alter>(
    conn: &mut Connection<S>,
    covered: RecordNo,
    changes: &Changes,
) -> Result<(), Error>
    requires { conn.old.in_transaction ≡ false }
    ensures ended { conn.new.in_transaction ≡ false }
    ensures made { OnOk result (HasMade S.Store (λ _. ⊤) (published covered changes.now) conn.old conn.new) }
    ensures undone { OnErr result (HasUndone S.Store conn.old conn.new) }
    ensures crash { Survives (state S.Store conn.old) (state S.Store conn.new)
        (IsTried (λ _. ⊤) (published covered changes.now) (state S.Store conn.old)) }
{
    let mut tx = conn.transaction();
    change(&mut tx, covered, changes)?;
    tx.commit()?;
    Ok(())
}

// Puts in what is new, takes out what is gone, and writes the head last.
fn change<S: Alter>(
    tx: &mut Transaction<'_, S>,
    covered: RecordNo,
    changes: &Changes,
) -> Result<(), Error>
    ensures same_reference { tx.new.conn.ghost_name ≡ tx.old.conn.ghost_name }
    ensures turned { OnOk result (HasTurned S.Store (λ _. ⊤) (published covered changes.now) tx.old.conn.now tx.new.conn.now) }
    ensures kept { HasKept S.Store tx.old.conn.now tx.new.conn.now }
    ensures survives { Survives (state S.Store tx.old.conn.now) (state S.Store tx.new.conn.now) (λ _. ⊥) }
{
    put_all(tx, changes.rows.as_slice())?;
    remove_all(tx, changes.gone.as_slice())?;
    statements::cover(tx, covered)?;
    Ok(())
}

// Puts the worths in at their spots, one after the other.
fn put_all<S: Alter>(tx: &mut Transaction<'_, S>, rows: &[SpotWorth]) -> Result<(), Error>
    ensures same_reference { tx.new.conn.ghost_name ≡ tx.old.conn.ghost_name }
    ensures gone { OnOk result (HasGone S.Store (with_worths rows.now) tx.old.conn.now tx.new.conn.now) }
    ensures kept { HasKept S.Store tx.old.conn.now tx.new.conn.now }
    ensures survives { Survives (state S.Store tx.old.conn.now) (state S.Store tx.new.conn.now) (λ _. ⊥) }
{
    for row in rows {
        statements::put_worth(tx, row)?;
    }
    Ok(())
}

// Takes out the worths at these spots.
fn remove_all<S: Alter>(tx: &mut Transaction<'_, S>, spots: &[Spot]) -> Result<(), Error>
    ensures same_reference { tx.new.conn.ghost_name ≡ tx.old.conn.ghost_name }
    ensures gone { OnOk result (HasGone S.Store (without_spots spots.now) tx.old.conn.now tx.new.conn.now) }
    ensures kept { HasKept S.Store tx.old.conn.now tx.new.conn.now }
    ensures survives { Survives (state S.Store tx.old.conn.now) (state S.Store tx.new.conn.now) (λ _. ⊥) }
{
    for spot in spots {
        statements::remove_worth(tx, spot)?;
    }
    Ok(())
}
