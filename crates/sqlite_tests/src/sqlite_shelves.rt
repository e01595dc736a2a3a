//! A shelf over files refuses what is no database, and leaves it as it was; and closes a database whose keeper is put back.
ghost use Rattle.std.specs.Prelude.{◌≡◌, false};

use keeper_sqlite::sqlite_keeper::SqliteKeeper;
use keeper_sqlite::sqlite_shelf::SqliteShelf;
use keeper_sqlite::supposing::AnyFile;
use sqlite::{Alter, Connection};
use std::alloc::Global;
use std::fs;
use std::test::Fail;
use stock_keeper::keeper::Keeper;
use stock_keeper::shelf::Shelf;
use stock_nums::numbers::RecordNo;

const FOLDER: &str = "sqlite_shelves_test";

const PATH: &str = "sqlite_shelves_test/ledger";

const LOG: &str = "sqlite_shelves_test/ledger-wal";

// Whether a log stands beside the file.
fn has_log(rt: &HostRuntime) -> bool {
    fs::metadata(rt, LOG).is_ok()
}

// Whether a keeper is refused at the path, as a fault of the shelf.
fn is_refused(rt: &HostRuntime) -> bool {
    let mut shelf = SqliteShelf::new(rt, AnyFile);
    match shelf.open_keeper(PATH) {
        Ok(keeper) => {
            shelf.put_back(keeper);
            false
        }
        Err(_) => shelf.faults() == 1,
    }
}

#[test]
fn a_file_of_one_byte_is_refused_and_stays(rt: HostRuntime) -> Result<(), Fail> {
    let _ = fs::remove_dir_all(&rt, FOLDER);
    fs::create_dir(&rt, FOLDER)?;
    fs::write(&rt, PATH, b"x".as_slice())?;
    assert!(rt; is_refused(&rt));
    assert!(rt; fs::read(&rt, PATH)?.as_slice() == b"x".as_slice());
    assert!(rt; !has_log(&rt));
    fs::remove_dir_all(&rt, FOLDER)?;
    Ok(())
}

const CLOSED_FOLDER: &str = "sqlite_closed_test";

const CLOSED_PATH: &str = "sqlite_closed_test/ledger";

const BODY: &[u8] = b"a record that stands in the log until the database is closed";

// A keeper that the shelf hands out tells tables, which no clause here names: what is added is added by one that tells none.
fn adds<S: Alter + Drop>(alloc: Global, conn: Connection<S>) -> (bool, SqliteKeeper<S>)
    requires { conn.in_transaction ≡ false }
{
    let mut keeper = SqliteKeeper::over(alloc, conn);
    let is_added = keeper.append(RecordNo(1), BODY).is_ok();
    (is_added, keeper)
}

// Whether a keeper of the file adds a record, which stands in the log then, and is put back.
fn is_added(rt: &HostRuntime, path: &str) -> bool {
    let mut shelf = SqliteShelf::new(rt, AnyFile);
    match shelf.open_keeper(path) {
        Ok(keeper) => {
            let (is_added, keeper) = adds(rt.alloc(), keeper.into_connection());
            shelf.put_back(keeper);
            is_added
        }
        Err(_) => false,
    }
}

// Whether these bytes stand in the file.
fn stands_in(file: &[u8], bytes: &[u8]) -> bool {
    for at in 0..file.len() {
        if file[at..].starts_with(bytes) {
            return true;
        }
    }
    false
}

// A database that is closed has its log copied into it. One that is only let go has not.
#[test]
fn a_keeper_that_is_put_back_is_closed(rt: HostRuntime) -> Result<(), Fail> {
    let _ = fs::remove_dir_all(&rt, CLOSED_FOLDER);
    fs::create_dir(&rt, CLOSED_FOLDER)?;
    assert!(rt; is_added(&rt, CLOSED_PATH));
    assert!(rt; stands_in(fs::read(&rt, CLOSED_PATH)?.as_slice(), BODY));
    fs::remove_dir_all(&rt, CLOSED_FOLDER)?;
    Ok(())
}
