//! A ledger is kept over disks in memory that stop after so many calls, for each number of calls. What is opened again then has all
//! records that were acknowledged, or those and the next one, and covers what was acknowledged last, or what comes next; and a book
//! begins with them.
ghost use Rattle.std.specs.Prelude.{IsTrue};
ghost use Rattle.stock_keeper.specs.Keeping.{HoldsOfNone, Within};
ghost use Rattle.sqlite_tables.specs.Stored.{TellsTables};

use crate::sqlite_keepers::{adds, publishes, untold};
use keeper_sqlite::sqlite_keeper::SqliteKeeper;
use repost_worker::revalued_book::RevaluedBook;
use sqlite::{Alter, Connection, FileStore, Files, Options};
use sqlite_disk::{Crash, Disk, Fuse, Memory};
use std::alloc::Global;
use std::test::Fail;
use stock_keeper::changes::SpotWorth;
use stock_keeper::keeper::Keeper;
use stock_keeper::tables::{StoredRecord, Tables};
use stock_nums::entry::Worth;
use stock_nums::numbers::{Minor, RecordNo};
use stock_nums::place::{Side, Spot};

// The records of two items, two warehouses, a receipt, and two issues of what it brought.
const BODIES: [&[u8]; 7] = [
    br#"{"code":"A","desk":0,"do":"item","method":"fifo"}"#,
    br#"{"code":"B","desk":0,"do":"item","method":"average"}"#,
    br#"{"account":100,"code":"W1","desk":0,"do":"store"}"#,
    br#"{"account":101,"code":"W2","desk":0,"do":"store"}"#,
    br#"{"at":"2026-01-01T09:00:00","desk":0,"do":"receipt","lines":[{"amount":50,"item":"A","qty":5,"store":"W1"}]}"#,
    br#"{"at":"2026-01-02T09:00:00","desk":0,"do":"issue","lines":[{"item":"A","qty":1,"store":"W1"}],"use":"sold"}"#,
    br#"{"at":"2026-01-03T09:00:00","desk":0,"do":"issue","lines":[{"item":"A","qty":1,"store":"W1"}],"use":"sold"}"#,
];

// The numbers under which they are kept.
const NUMBERS: [i64; 7] = [1, 2, 3, 4, 5, 6, 7];

// How many records are published, after which two more are added.
const PUBLISHED: usize = 5;

// What the receipt brings.
const BROUGHT: SpotWorth = SpotWorth {
    spot: Spot {
        voucher: RecordNo(5),
        line: 1,
        side: Side::Enters,
    },
    worth: Worth {
        value: Minor(50),
        share: Minor(0),
    },
};

/// How many calls a disk may have that never stops here.
pub(crate) const MANY: u64 = 1_000_000;

/// What a run was told before it was stopped.
#[derive(Clone, Copy)]
struct Acknowledged {
    records: usize,
    // Whether the first records were published.
    is_published: bool,
}

const NOTHING: Acknowledged = Acknowledged {
    records: 0,
    is_published: false,
};

// Adds the records that are published, up to the first that is refused. Answers how many there are then.
fn add_first<K: Keeper>(keeper: &mut K) -> usize
    requires { HoldsOfNone (K.tells keeper.old) }
    ensures { HoldsOfNone (K.tells keeper.new) }
{
    if !adds(keeper, 1, BODIES[0]) {
        return 0;
    }
    if !adds(keeper, 2, BODIES[1]) {
        return 1;
    }
    if !adds(keeper, 3, BODIES[2]) {
        return 2;
    }
    if !adds(keeper, 4, BODIES[3]) {
        return 3;
    }
    if !adds(keeper, 5, BODIES[4]) {
        return 4;
    }
    PUBLISHED
}

// Adds the two records after these.
fn add_last<K: Keeper>(keeper: &mut K) -> usize
    requires { HoldsOfNone (K.tells keeper.old) }
{
    if !adds(keeper, 6, BODIES[5]) {
        return PUBLISHED;
    }
    if !adds(keeper, 7, BODIES[6]) {
        return 6;
    }
    7
}

// Keeps the ledger, up to the first call that is refused.
fn kept<K: Keeper>(alloc: Global, keeper: &mut K) -> Acknowledged
    requires { HoldsOfNone (K.tells keeper.old) }
{
    let records = add_first(keeper);
    if records < PUBLISHED || !publishes(alloc, keeper, 5, &[BROUGHT], &[]) {
        return Acknowledged {
            records,
            is_published: false,
        };
    }
    Acknowledged {
        records: add_last(keeper),
        is_published: true,
    }
}

// A keeper over the same database, which is not prepared itself, and so tells nothing.
fn retold<S: Alter + Drop>(alloc: Global, keeper: SqliteKeeper<S>) -> SqliteKeeper<S>
    ensures { HoldsOfNone (TellsTables S.Store result.tables) }
{
    SqliteKeeper::over(alloc, keeper.into_connection())
}

/// The files of a keeper that is let go, as they stand.
pub(crate) fn files_of<D: Disk + Drop>(keeper: SqliteKeeper<FileStore<D>>) -> Files<D> {
    keeper.into_connection().into_store().close()
}

/// The same of a keeper that was refused.
pub(crate) fn files_left<D: Disk + Drop>(
    left: Result<Connection<FileStore<D>>, FileStore<D>>,
) -> Files<D> {
    match left {
        Ok(conn) => conn.into_store().close(),
        Err(store) => store.close(),
    }
}

// Keeps the ledger over these files, which are given back.
fn run<D: Disk + Drop>(alloc: Global, files: Files<D>) -> (Acknowledged, Files<D>)
    requires log { IsTrue (D.Disk.is_usable files.log) }
    requires db { IsTrue (D.Disk.is_usable files.db) }
{
    let conn = match Connection::open_files(alloc, files, Options::new(7)) {
        Ok(conn) => conn,
        Err((_, left)) => return (NOTHING, left.into_files()),
    };
    let keeper = match SqliteKeeper::prepared(alloc, conn) {
        Ok(keeper) => keeper,
        Err((_, left)) => return (NOTHING, files_left(left)),
    };
    let mut keeper = retold(alloc, keeper);
    let told = kept(alloc, &mut keeper);
    (told, files_of(keeper))
}

// Whether a book begins over this keeper.
fn begins<K: Keeper + Drop>(alloc: Global, keeper: K) -> bool
    requires { Within (K.tells keeper) (K.may_leave keeper) }
{
    match RevaluedBook::begin(alloc, keeper) {
        Ok(_) => true,
        Err(_) => false,
    }
}

// Whether one begins with the tables of this database.
fn begins_over<S: Alter + Drop>(alloc: Global, conn: Connection<S>) -> bool {
    match SqliteKeeper::prepared(alloc, conn) {
        Ok(keeper) => begins(alloc, keeper),
        Err(_) => false,
    }
}

// Whether one begins with those in these files.
fn begins_in<D: Disk + Drop>(alloc: Global, files: Files<D>) -> bool
    requires log { IsTrue (D.Disk.is_usable files.log) }
    requires db { IsTrue (D.Disk.is_usable files.db) }
{
    match Connection::open_files(alloc, files, Options::new(7)) {
        Ok(conn) => begins_over(alloc, conn),
        Err(_) => false,
    }
}

/// The tables in these files.
pub(crate) fn loaded<D: Disk + Drop>(alloc: Global, files: Files<D>) -> Option<Tables>
    requires log { IsTrue (D.Disk.is_usable files.log) }
    requires db { IsTrue (D.Disk.is_usable files.db) }
{
    let Ok(conn) = Connection::open_files(alloc, files, Options::new(7)) else {
        return None;
    };
    let mut keeper = untold(alloc, conn)?;
    keeper.load().ok()
}

// Whether this is the record with this index.
fn is_at(record: &StoredRecord, index: usize) -> bool {
    match (NUMBERS.get(index), BODIES.get(index)) {
        (Some(number), Some(body)) => record.number == *number && record.body.as_slice() == *body,
        _ => false,
    }
}

// Whether the records are the first ones, in order.
fn are_first(records: &[StoredRecord]) -> bool {
    for index in 0..records.len() {
        if !is_at(&records[index], index) {
            return false;
        }
    }
    true
}

// Whether these are whole tables of so many records, whose first ones are published or are not.
fn are_of(tables: &Tables, records: usize, is_published: bool) -> bool {
    let worths = tables.worths.as_slice();
    let are_covered = if is_published {
        tables.covered == 5 && worths == [BROUGHT].as_slice()
    } else {
        tables.covered == 0 && worths.is_empty()
    };
    let stored = tables.records.as_slice();
    tables.version == 2 && stored.len() == records && are_first(stored) && are_covered
}

// Whether the tables are those that were acknowledged, or those and the next change.
fn are_left(tables: &Tables, told: Acknowledged) -> bool {
    if are_of(tables, told.records, told.is_published) {
        return true;
    }
    if told.records == PUBLISHED && !told.is_published {
        return are_of(tables, told.records, true);
    }
    are_of(tables, told.records.saturating_add(1), told.is_published)
}

// Whether such tables are loaded from these files.
fn is_left<D: Disk + Drop>(alloc: Global, files: Files<D>, told: Acknowledged) -> bool
    requires log { IsTrue (D.Disk.is_usable files.log) }
    requires db { IsTrue (D.Disk.is_usable files.db) }
{
    match loaded(alloc, files) {
        Some(tables) => are_left(&tables, told),
        None => false,
    }
}

// What a file has, synced, in one that stops after so many calls.
fn copied(alloc: Global, file: &Fuse<Memory>, calls: u64) -> Option<Fuse<Memory>> {
    let mut copy = Memory::new(alloc);
    copy.write_at(0, file.inner().bytes()).ok()?;
    if !copy.may_be_used() {
        return None;
    }
    copy.sync().ok()?;
    Some(Fuse::new(copy, calls))
}

/// What both files have, as they stand, in files that stop after so many calls of each.
pub(crate) fn copied_files(
    alloc: Global,
    files: &Files<Fuse<Memory>>,
    log: u64,
    db: u64,
) -> Option<Files<Fuse<Memory>>> {
    Some(Files {
        log: copied(alloc, &files.log, log)?,
        db: copied(alloc, &files.db, db)?,
    })
}

// Whether such tables are loaded from a copy of these files, as they stand.
fn is_left_written(alloc: Global, files: &Files<Fuse<Memory>>, told: Acknowledged) -> Option<bool> {
    let files = copied_files(alloc, files, MANY, MANY)?;
    if !files.may_be_used() {
        return None;
    }
    Some(is_left(alloc, files, told))
}

/// Whether a book begins with the tables in a copy of these files, as they stand.
pub(crate) fn is_begun(alloc: Global, files: &Files<Fuse<Memory>>) -> Option<bool> {
    let files = copied_files(alloc, files, MANY, MANY)?;
    if !files.may_be_used() {
        return None;
    }
    Some(begins_in(alloc, files))
}

// Whether these files have what a stop may leave, and a book begins with it: all that was written is there.
fn opens_written(alloc: Global, files: &Files<Fuse<Memory>>, told: Acknowledged) -> bool {
    is_left_written(alloc, files, told) == Some(true) && is_begun(alloc, files) == Some(true)
}

// The same, once all that was not synced is lost.
fn opens_synced(alloc: Global, mut files: Files<Fuse<Memory>>, told: Acknowledged) -> bool {
    files.log.crash();
    files.db.crash();
    is_begun(alloc, &files) == Some(true) && is_left(alloc, files, told)
}

/// Files in memory that stop after so many calls of each.
pub(crate) fn stopping(alloc: Global, log: u64, db: u64) -> Files<Fuse<Memory>> {
    Files {
        log: Fuse::new(Memory::new(alloc), log),
        db: Fuse::new(Memory::new(alloc), db),
    }
}

/// The files of a ledger with all of its records, if it was kept.
pub(crate) fn kept_whole(alloc: Global) -> Option<Files<Fuse<Memory>>> {
    let files = stopping(alloc, MANY, MANY);
    if !files.may_be_used() {
        return None;
    }
    let (told, files) = run(alloc, files);
    if told.records == 7 { Some(files) } else { None }
}

/// Whether these are whole tables with all of its records.
pub(crate) fn are_all(tables: &Tables) -> bool {
    are_of(tables, 7, true)
}

// What is left of a run over these files: none where it was not stopped, else whether it is what a stop may leave, and a book
// begins with it.
fn stopped(alloc: Global, files: Files<Fuse<Memory>>) -> Option<bool> {
    if !files.may_be_used() {
        return Some(false);
    }
    let (told, files) = run(alloc, files);
    if told.records == 7 {
        return None;
    }
    Some(opens_written(alloc, &files, told) && opens_synced(alloc, files, told))
}

// How many calls of the log a run makes, where each stop of it leaves what it may; or after how many calls one does not.
fn stops_of_log(alloc: Global) -> Result<u64, u64> {
    for calls in 0..1000 {
        match stopped(alloc, stopping(alloc, calls, MANY)) {
            Some(true) => {}
            Some(false) => return Err(calls),
            None => return Ok(calls),
        }
    }
    Err(MANY)
}

// The same of the database file.
fn stops_of_db(alloc: Global) -> Result<u64, u64> {
    for calls in 0..1000 {
        match stopped(alloc, stopping(alloc, MANY, calls)) {
            Some(true) => {}
            Some(false) => return Err(calls),
            None => return Ok(calls),
        }
    }
    Err(MANY)
}

#[test]
fn each_stop_of_the_log_leaves_what_was_acknowledged(rt: HostRuntime) -> Result<(), Fail> {
    let stops = stops_of_log(rt.alloc());
    assert!(rt; stops.is_ok(), "{stops:?}");
    println!(rt; "{stops:?}")?;
    Ok(())
}

#[test]
fn each_stop_of_the_database_file_leaves_what_was_acknowledged(
    rt: HostRuntime,
) -> Result<(), Fail> {
    let stops = stops_of_db(rt.alloc());
    assert!(rt; stops.is_ok(), "{stops:?}");
    println!(rt; "{stops:?}")?;
    Ok(())
}
