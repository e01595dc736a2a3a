//! How a database is made ready to be a ledger's: what is there decides.
ghost use Rattle.std.specs.Prelude.{◌≡◌, false, IfOk, IfSome, OnErr};
ghost use Rattle.sqlite.specs.State.{Survives};
ghost use Rattle.sqlite.specs.Held.{state};
ghost use Rattle.stock_keeper.specs.Worths.{AreInOrder};
ghost use Rattle.sqlite_tables.specs.Finding.{IsPrepared, LeavesPrepared};
ghost use Rattle.sqlite_tables.specs.Turning.{HasUndone};

use crate::{finding, making, upgrading};
use sqlite::{Alter, Connection, Error};
use std::alloc::Global;
use stock_keeper::tables::Tables;

/// Makes the tables in a database with nothing in it, and upgrades those of a ledger, in one transaction. Answers a copy of tables that
/// were found.
///
/// # Errors
///
/// As `upgrade_ledger`.
pub(crate) fn prepare<S: Alter>(
    alloc: Global,
    conn: &mut Connection<S>,
) -> Result<Option<Tables>, Error>
    requires { conn.old.in_transaction ≡ false }
    ensures ended { conn.new.in_transaction ≡ false }
    ensures prepared { IfOk result (IsPrepared S.Store conn.old conn.new) }
    ensures in_order { IfOk result (λ found. IfSome found (λ copy. AreInOrder copy.worths)) }
    ensures undone { OnErr result (HasUndone S.Store conn.old conn.new) }
    ensures crash { Survives (state S.Store conn.old) (state S.Store conn.new) (LeavesPrepared S.Store conn.old) }
{
    if finding::is_blank(conn.schema()) {
        making::make_tables(conn)?;
        return Ok(None);
    }
    let copy = upgrading::upgrade_ledger(alloc, conn)?;
    Ok(Some(copy))
}
