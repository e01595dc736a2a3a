//! A keeper over SQLite loads what was written, and refuses what it cannot read, a disk that fails, and the databases of others.
ghost use Rattle.std.specs.Prelude.{◌≡◌, false, IfSome, IsTrue};
ghost use Rattle.stock_keeper.specs.Keeping.{HoldsOfNone};
ghost use Rattle.sqlite_tables.specs.Stored.{TellsTables};

use keeper_sqlite::sqlite_keeper::SqliteKeeper;
use sqlite::{Alter, Connection, Files, Options};
use sqlite_disk::{Disk, Fuse, Memory};
use std::alloc::Global;
use stock_keeper::changes::{Changes, SpotWorth};
use stock_keeper::fault::KeepFault;
use stock_keeper::keeper::Keeper;
use stock_keeper::tables::Tables;
use stock_nums::entry::Worth;
use stock_nums::lines::Lines;
use stock_nums::memory::NoMemory;
use stock_nums::numbers::{Minor, RecordNo};
use stock_nums::place::{Side, Spot};

// The helpers have no clauses but those of an open database, and take any store, so that a test carries none of a keeper's clauses
// from call to call.

// What record 1 takes out is worth.
const LEAVES: SpotWorth = SpotWorth {
    spot: Spot {
        voucher: RecordNo(1),
        line: 1,
        side: Side::Leaves,
    },
    worth: Worth {
        value: Minor(-9_000_000_000),
        share: Minor(0),
    },
};

// What it brings.
const ENTERS: SpotWorth = SpotWorth {
    spot: Spot {
        voucher: RecordNo(1),
        line: 1,
        side: Side::Enters,
    },
    worth: Worth {
        value: Minor(30),
        share: Minor(7),
    },
};

// The same, once it has changed.
const CHANGED: SpotWorth = SpotWorth {
    spot: Spot {
        voucher: RecordNo(1),
        line: 1,
        side: Side::Enters,
    },
    worth: Worth {
        value: Minor(31),
        share: Minor(8),
    },
};

// What the last possible record brings.
const LATER: SpotWorth = SpotWorth {
    spot: Spot {
        voucher: RecordNo(4_294_967_295),
        line: 1,
        side: Side::Enters,
    },
    worth: Worth {
        value: Minor(5),
        share: Minor(-5),
    },
};

fn lines_of<T: Copy>(alloc: Global, items: &[T]) -> Result<Lines<T>, NoMemory> {
    Ok(Lines::from_vec(items.to_vec(alloc)?))
}

pub(crate) fn adds<K: Keeper>(keeper: &mut K, number: u32, body: &[u8]) -> bool
    requires { HoldsOfNone (K.tells keeper.old) }
    ensures { HoldsOfNone (K.tells keeper.new) }
{
    match keeper.append(RecordNo(number), body) {
        Ok(()) => true,
        Err(_) => false,
    }
}

fn changes(alloc: Global, rows: &[SpotWorth], gone: &[Spot]) -> Option<Changes> {
    Some(Changes {
        rows: lines_of(alloc, rows).ok()?,
        gone: lines_of(alloc, gone).ok()?,
    })
}

pub(crate) fn publishes<K: Keeper>(
    alloc: Global,
    keeper: &mut K,
    covered: u32,
    rows: &[SpotWorth],
    gone: &[Spot],
) -> bool
    requires { HoldsOfNone (K.tells keeper.old) }
    ensures { HoldsOfNone (K.tells keeper.new) }
{
    let Some(changes) = changes(alloc, rows, gone) else {
        return false;
    };
    match keeper.publish(RecordNo(covered), &changes) {
        Ok(()) => true,
        Err(_) => false,
    }
}

fn has_last(tables: &Tables, number: i64, body: &[u8]) -> bool {
    match tables.records.as_slice().last() {
        Some(record) => record.number == number && record.body.as_slice() == body,
        None => false,
    }
}

// Whether there are so many records, of which the last is this one, and these worths.
fn are(tables: &Tables, number: i64, body: &[u8], covered: i64, worths: &[SpotWorth]) -> bool {
    tables.records.as_slice().len() as i64 == number
        && has_last(tables, number, body)
        && tables.covered == covered
        && tables.worths.as_slice() == worths
}

// The same of the tables that are loaded.
fn loads<K: Keeper>(
    keeper: &mut K,
    number: i64,
    body: &[u8],
    covered: i64,
    worths: &[SpotWorth],
) -> bool
    requires { HoldsOfNone (K.tells keeper.old) }
    ensures { HoldsOfNone (K.tells keeper.new) }
{
    match keeper.load() {
        Ok(tables) => tables.version == 2 && are(&tables, number, body, covered, worths),
        Err(_) => false,
    }
}

/// Whether two records and their worths are kept.
pub(crate) fn keeps_two<K: Keeper>(alloc: Global, keeper: &mut K) -> bool
    requires { HoldsOfNone (K.tells keeper.old) }
{
    adds(keeper, 1, b"one")
        && publishes(alloc, keeper, 1, &[LATER, ENTERS, LEAVES], &[])
        && loads(keeper, 1, b"one", 1, &[LEAVES, ENTERS, LATER])
        && adds(keeper, 2, b"two")
        && publishes(alloc, keeper, 2, &[CHANGED], &[LATER.spot])
}

/// Whether the tables are of them, whatever their version is.
pub(crate) fn two_are_kept(tables: &Tables) -> bool {
    are(tables, 2, b"two", 2, &[LEAVES, CHANGED])
}

// A keeper over this database, once its tables are there. It tells nothing itself, so that a test may append what it likes.
pub(crate) fn untold<S: Alter + Drop>(alloc: Global, conn: Connection<S>) -> Option<SqliteKeeper<S>>
    requires { conn.in_transaction ≡ false }
    ensures { IfSome result (λ keeper. HoldsOfNone (TellsTables S.Store keeper.tables)) }
{
    match SqliteKeeper::prepared(alloc, conn) {
        Ok(keeper) => Some(SqliteKeeper::over(alloc, keeper.into_connection())),
        Err(_) => None,
    }
}

// Whether they are there where the database is opened again, as the next run would.
fn are_kept<S: Alter + Drop>(alloc: Global, conn: Connection<S>) -> bool
    requires { conn.in_transaction ≡ false }
{
    match untold(alloc, conn) {
        Some(mut keeper) => loads(&mut keeper, 2, b"two", 2, &[LEAVES, CHANGED]),
        None => false,
    }
}

fn keeps_for_good<S: Alter + Drop>(alloc: Global, conn: Connection<S>) -> bool
    requires { conn.in_transaction ≡ false }
{
    match untold(alloc, conn) {
        Some(mut keeper) => {
            keeps_two(alloc, &mut keeper) && are_kept(alloc, keeper.into_connection())
        }
        None => false,
    }
}

#[test]
fn what_was_written_is_loaded_after_opening_again(rt: HostRuntime) {
    let Ok(conn) = Connection::open_in_memory(rt.alloc()) else {
        panic!(rt; "not opened")
    };
    assert!(rt; keeps_for_good(rt.alloc(), conn));
}

// Whether a record is refused that was added, and counted as a fault, and the tables stay.
fn refuses_a_second<S: Alter + Drop>(alloc: Global, conn: Connection<S>) -> bool
    requires { conn.in_transaction ≡ false }
{
    match untold(alloc, conn) {
        Some(mut keeper) => {
            adds(&mut keeper, 1, b"one")
                && !adds(&mut keeper, 1, b"two")
                && keeper.faults() == 1
                && loads(&mut keeper, 1, b"one", 0, &[])
        }
        None => false,
    }
}

#[test]
fn a_refusal_is_counted_and_changes_nothing(rt: HostRuntime) {
    let Ok(conn) = Connection::open_in_memory(rt.alloc()) else {
        panic!(rt; "not opened")
    };
    assert!(rt; refuses_a_second(rt.alloc(), conn));
}

/// The database after this statement, where it has no transaction open.
pub(crate) fn after<S: Alter + Drop>(mut conn: Connection<S>, sql: &str) -> Option<Connection<S>>
    ensures { IfSome result (λ conn. conn.in_transaction ≡ false) }
{
    match conn.execute(sql, &[]) {
        Ok(_) if conn.is_autocommit() => Some(conn),
        _ => None,
    }
}

// Whether tables are loaded from this database.
fn is_loaded<S: Alter + Drop>(alloc: Global, conn: Connection<S>) -> bool
    requires { conn.in_transaction ≡ false }
{
    match untold(alloc, conn) {
        Some(mut keeper) => keeper.load().is_ok(),
        None => false,
    }
}

// The database of a keeper in which nothing is kept.
fn made_ready<S: Alter + Drop>(alloc: Global, conn: Connection<S>) -> Option<Connection<S>>
    requires { conn.in_transaction ≡ false }
{
    Some(untold(alloc, conn)?.into_connection())
}

// Whether tables are loaded after this statement has changed them.
fn loads_after(alloc: Global, sql: &str) -> Option<bool> {
    let conn = made_ready(alloc, Connection::open_in_memory(alloc).ok()?)?;
    Some(is_loaded(alloc, after(conn, sql)?))
}

#[test]
fn rows_that_cannot_be_read_are_refused(rt: HostRuntime) {
    for (sql, is_loaded) in [
        ("INSERT INTO worths VALUES(1, 1, 1, 0, 0)", true),
        ("INSERT INTO worths VALUES(1, 1, 2, 0, 0)", false),
        ("INSERT INTO worths VALUES(1, -1, 1, 0, 0)", false),
        ("INSERT INTO records VALUES(-7, x'00')", true),
        ("DELETE FROM head", false),
    ] {
        assert!(rt; loads_after(rt.alloc(), sql) == Some(is_loaded), "{sql}");
    }
}

/// The database, where it is refused as none of ours.
pub(crate) fn is_foreign<S: Alter + Drop>(
    alloc: Global,
    conn: Connection<S>,
) -> Option<Connection<S>>
    requires { conn.in_transaction ≡ false }
{
    match SqliteKeeper::prepared(alloc, conn) {
        Err((KeepFault::Failed, Ok(conn))) => Some(conn),
        _ => None,
    }
}

// How many tables and views it has.
fn names_in<S: Alter + Drop>(mut conn: Connection<S>) -> Option<usize> {
    let names = conn.query_all("SELECT name FROM sqlite_schema", &[]).ok()?;
    Some(names.len())
}

// How many a database has that was refused, which this statement made.
fn names_in_foreign(alloc: Global, sql: &str) -> Option<usize> {
    let conn = after(Connection::open_in_memory(alloc).ok()?, sql)?;
    names_in(is_foreign(alloc, conn)?)
}

#[test]
fn a_foreign_database_is_refused_and_keeps_its_tables(rt: HostRuntime) {
    for sql in [
        "CREATE TABLE notes(text TEXT)",
        "CREATE TABLE head(id INTEGER PRIMARY KEY)",
        "CREATE VIEW one AS SELECT 1",
    ] {
        assert!(rt; names_in_foreign(rt.alloc(), sql) == Some(1), "{sql}");
    }
}

// Whether a record is added to this database, and how many faults are counted then.
fn added_to<S: Alter + Drop>(alloc: Global, conn: Connection<S>) -> Option<(bool, u64)>
    requires { conn.in_transaction ≡ false }
{
    let mut keeper = untold(alloc, conn)?;
    let is_added = adds(&mut keeper, 1, b"one");
    Some((is_added, keeper.faults()))
}

// The same of the database in these files.
fn added_to_files<D: Disk + Drop>(alloc: Global, files: Files<D>) -> Option<(bool, u64)>
    requires log { IsTrue (D.Disk.is_usable files.log) }
    requires db { IsTrue (D.Disk.is_usable files.db) }
{
    match Connection::open_files(alloc, files, Options::new(7)) {
        Ok(conn) => added_to(alloc, conn),
        Err(_) => None,
    }
}

// The same of files in memory, of which the log fails after so many calls.
fn added_over_fuses(alloc: Global, calls: u64) -> Option<(bool, u64)> {
    let files = Files {
        log: Fuse::new(Memory::new(alloc), calls),
        db: Fuse::new(Memory::new(alloc), 1000),
    };
    added_to_files(alloc, files)
}

#[test]
fn a_disk_that_fails_is_counted(rt: HostRuntime) {
    let mut has_failed = false;
    for calls in 24..29 {
        match added_over_fuses(rt.alloc(), calls) {
            Some((true, faults)) => assert!(rt; faults == 0),
            Some((false, faults)) => {
                assert!(rt; faults == 1);
                has_failed = true;
            }
            None => {}
        }
    }
    assert!(rt; has_failed);
}
