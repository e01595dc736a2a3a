//! Tables that are found are opened: those of version 1 as those of version 2, and those of each other version as they are.

ghost use Rattle.std.specs.Prelude.{◌≡◌, false};

use crate::sqlite_keepers::{after, is_foreign, keeps_two, two_are_kept, untold};
use sqlite::{Alter, Connection, MemStore};
use std::alloc::Global;
use stock_keeper::keeper::Keeper;

// The version that is loaded where two records were kept, and the database is opened again after this statement. None where
// their records or worths are others then, or another number of them is covered.
fn version_after(alloc: Global, sql: &str) -> Option<i64> {
    let mut keeper = untold(alloc, Connection::open_in_memory(alloc).ok()?)?;
    if !keeps_two(alloc, &mut keeper) {
        return None;
    }
    let mut opened = untold(alloc, after(keeper.into_connection(), sql)?)?;
    let tables = opened.load().ok()?;
    if two_are_kept(&tables) {
        Some(tables.version)
    } else {
        None
    }
}

#[test]
fn tables_of_version_1_alone_are_upgraded(rt: HostRuntime) {
    for (sql, version) in [
        ("UPDATE head SET version = 1", 2),
        ("UPDATE head SET version = 2", 2),
        ("UPDATE head SET version = 3", 3),
        ("UPDATE head SET version = 0", 0),
        ("UPDATE head SET version = -1", -1),
    ] {
        assert!(rt; version_after(rt.alloc(), sql) == Some(version), "{sql}");
    }
}

// A ledger of version 1.
fn old_ledger(alloc: Global) -> Option<Connection<MemStore>> {
    let keeper = untold(alloc, Connection::open_in_memory(alloc).ok()?)?;
    after(keeper.into_connection(), "UPDATE head SET version = 1")
}

// The version that stands in a database that was refused.
fn version_in_refused<S: Alter + Drop>(alloc: Global, conn: Connection<S>) -> Option<i64>
    requires { conn.in_transaction ≡ false }
{
    let mut conn = is_foreign(alloc, conn)?;
    let row = conn.query_row("SELECT version FROM head", &[]).ok()?;
    row.get(0).ok()
}

// The same of a ledger of version 1 with one thing more, which this statement made.
fn version_with(alloc: Global, more: &str) -> Option<i64> {
    version_in_refused(alloc, after(old_ledger(alloc)?, more)?)
}

// The same of one whose head is another table, which this statement made, with one row of version 1.
fn version_of_others(alloc: Global, head: &str) -> Option<i64> {
    let conn = after(old_ledger(alloc)?, "DROP TABLE head")?;
    let conn = after(conn, head)?;
    version_in_refused(
        alloc,
        after(conn, "INSERT INTO head(id, version) VALUES(1, 1)")?,
    )
}

#[test]
fn a_database_of_others_with_these_names_is_refused_and_stays(rt: HostRuntime) {
    for head in [
        "CREATE TABLE head(id INTEGER PRIMARY KEY, version INTEGER)",
        "CREATE TABLE head(id INTEGER PRIMARY KEY, version INTEGER NOT NULL, covered INTEGER NOT NULL DEFAULT 0) STRICT",
    ] {
        assert!(rt; version_of_others(rt.alloc(), head) == Some(1), "{head}");
    }
    for more in [
        "CREATE TABLE notes(text TEXT)",
        "CREATE INDEX bodies ON records(body)",
        "CREATE VIEW one AS SELECT 1",
    ] {
        assert!(rt; version_with(rt.alloc(), more) == Some(1), "{more}");
    }
}
