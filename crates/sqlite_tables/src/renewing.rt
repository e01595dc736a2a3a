//! A connection that is made anew. A store that is not broken says of itself that its rows stand by rowid, and a connection says
//! nothing of the kind: so one is taken apart down to its store, and made again.
ghost use Rattle.std.specs.Prelude.{IfOk, IfErr};
ghost use Rattle.sqlite_tables.specs.Sorted.{IsRenewed, KnowsOrder, LeavesNoMore};

use sqlite::{Alter, Connection, Error, ErrorCode};
use std::alloc::Global;

/// A new connection in place of this one, whose transaction is rolled back if one is open. The database is audited again: all of its
/// rows are read. No transaction is open then, and the rows of each table stand by rowid.
///
/// # Errors
///
/// Those of the database, and `Closed` where a fault has shut it. Its store is given back.
pub fn renewed<S: Alter + Drop>(
    alloc: Global,
    conn: Connection<S>,
) -> Result<Connection<S>, (Error, S)>
    ensures renewed { IfOk result (λ made. IsRenewed S.Store conn made) }
    ensures order { IfOk result (λ made. KnowsOrder S.Store made) }
    ensures left { IfErr result (λ e. LeavesNoMore S.Store conn e.1) }
{
    let store = conn.into_store();
    if store.is_broken() {
        return Err((Error::SqliteFailure(ErrorCode::Closed), store));
    }
    let conn = Connection::over(alloc, store)?;
    Ok(conn)
}
