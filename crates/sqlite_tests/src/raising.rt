//! A ledger of version 1 is opened over disks in memory that stop after so many calls, for each number of calls. What is left then
//! has version 1 or version 2, and opens with all of its records, and a book begins with them: once where all that was written is
//! there, and once where all that was not synced is lost.
ghost use Rattle.std.specs.Prelude.{IsTrue};

use crate::sqlite_keepers::after;
use crate::stops::{
    MANY, are_all, copied_files, files_left, files_of, is_begun, kept_whole, loaded,
};
use keeper_sqlite::sqlite_keeper::SqliteKeeper;
use sqlite::{Connection, FileStore, Files, Options};
use sqlite_disk::{Crash, Disk, Fuse, Memory};
use std::alloc::Global;
use std::test::Fail;

// The version that a stop leaves in the files.
#[derive(Clone, Copy)]
struct Left {
    is_opened: bool,
    written: i64,
    synced: i64,
}

// How many stops left either version in the files as they were synced.
#[derive(Clone, Copy, Debug)]
struct Stops {
    first: u64,
    second: u64,
}

// The files, with version 1.
fn made_old<D: Disk + Drop>(alloc: Global, files: Files<D>) -> Option<Files<D>> {
    if !files.may_be_used() {
        return None;
    }
    match Connection::open_files(alloc, files, Options::new(7)) {
        Ok(conn) => {
            let conn = after(conn, "UPDATE head SET version = 1")?;
            Some(conn.into_store().close())
        }
        Err(_) => None,
    }
}

// The version in these files, as it stands.
fn version_in<D: Disk + Drop>(alloc: Global, files: Files<D>) -> Option<i64> {
    if !files.may_be_used() {
        return None;
    }
    match Connection::open_files(alloc, files, Options::new(7)) {
        Ok(conn) => version_of(conn),
        Err(_) => None,
    }
}

fn version_of<D: Disk + Drop>(mut conn: Connection<FileStore<D>>) -> Option<i64> {
    let row = conn.query_row("SELECT version FROM head", &[]).ok()?;
    row.get(0).ok()
}

// Opens the ledger in these files, which are given back. Answers whether it is opened.
fn opened<D: Disk + Drop>(alloc: Global, files: Files<D>) -> (bool, Files<D>)
    requires log { IsTrue (D.Disk.is_usable files.log) }
    requires db { IsTrue (D.Disk.is_usable files.db) }
{
    let conn = match Connection::open_files(alloc, files, Options::new(7)) {
        Ok(conn) => conn,
        Err((_, left)) => return (false, left.into_files()),
    };
    match SqliteKeeper::prepared(alloc, conn) {
        Ok(keeper) => (true, files_of(keeper)),
        Err((_, left)) => (false, files_left(left)),
    }
}

// The version in these files, if the ledger opens with all of its records, and a book begins with them.
fn left_in(alloc: Global, files: &Files<Fuse<Memory>>) -> Option<i64> {
    let again = copied_files(alloc, files, MANY, MANY)?;
    if !again.may_be_used() {
        return None;
    }
    if !are_all(&loaded(alloc, again)?) || !is_begun(alloc, files)? {
        return None;
    }
    version_in(alloc, copied_files(alloc, files, MANY, MANY)?)
}

// What is left of old files that stop after so many calls of each. None where they do not open then with all records.
fn stopped(alloc: Global, old: &Files<Fuse<Memory>>, log: u64, db: u64) -> Option<Left> {
    let files = copied_files(alloc, old, log, db)?;
    if !files.may_be_used() {
        return None;
    }
    let (is_opened, mut files) = opened(alloc, files);
    let written = left_in(alloc, &files)?;
    files.log.crash();
    files.db.crash();
    let synced = left_in(alloc, &files)?;
    Some(Left {
        is_opened,
        written,
        synced,
    })
}

// Whether a stop may leave this: either version, and the second one where the ledger was opened.
fn is_due(left: Left) -> bool {
    let are_known = (left.written == 1 || left.written == 2)
        && (left.synced == 1 || left.synced == 2);
    are_known && (!left.is_opened || left.synced == 2)
}

// The stops, with one more.
fn counted(stops: Stops, left: Left) -> Stops {
    if left.synced == 1 {
        Stops {
            first: stops.first.saturating_add(1),
            second: stops.second,
        }
    } else {
        Stops {
            first: stops.first,
            second: stops.second.saturating_add(1),
        }
    }
}

// What the stops of the log leave, up to the one that stops nothing; or after how many calls one leaves what it may not.
fn stops_of_log(alloc: Global, old: &Files<Fuse<Memory>>) -> Result<Stops, u64> {
    let mut stops = Stops {
        first: 0,
        second: 0,
    };
    for calls in 0..1000 {
        match stopped(alloc, old, calls, MANY) {
            Some(left) if is_due(left) => {
                if left.is_opened {
                    return Ok(stops);
                }
                stops = counted(stops, left);
            }
            _ => return Err(calls),
        }
    }
    Err(MANY)
}

// The same of the database file.
fn stops_of_db(alloc: Global, old: &Files<Fuse<Memory>>) -> Result<Stops, u64> {
    let mut stops = Stops {
        first: 0,
        second: 0,
    };
    for calls in 0..1000 {
        match stopped(alloc, old, MANY, calls) {
            Some(left) if is_due(left) => {
                if left.is_opened {
                    return Ok(stops);
                }
                stops = counted(stops, left);
            }
            _ => return Err(calls),
        }
    }
    Err(MANY)
}

#[test]
fn each_stop_while_version_1_is_raised_leaves_all_records(rt: HostRuntime) -> Result<(), Fail> {
    let alloc = rt.alloc();
    let Some(files) = kept_whole(alloc) else {
        panic!(rt; "not kept")
    };
    let Some(old) = made_old(alloc, files) else {
        panic!(rt; "not made old")
    };
    let log = stops_of_log(alloc, &old);
    assert!(rt; log.is_ok(), "{log:?}");
    let db = stops_of_db(alloc, &old);
    assert!(rt; db.is_ok(), "{db:?}");
    println!(rt; "{log:?} {db:?}")?;
    Ok(())
}
