//! What stands at a path before the database opens it. The database takes a file of one byte for an empty one, and adds a log
//! to a file also where it refuses that; so what is no database is refused here, and the log is taken away again.
ghost use Rattle.std.specs.Prelude.{◌↔◌, IsTrue};
ghost use Rattle.keeper_sqlite.specs.Files.{IsHalfMade, MayOpen};

use sqlite::{Error, ErrorCode};
use std::fs;
use std::io::{self, ErrorKind, Read};

// The first bytes of each database.
const HEAD: [u8; 16] = *b"SQLite format 3\0";

// The bytes of a first page, of which an interrupted first opening leaves some.
const PAGE: u64 = 4096;

// The most bytes of a log that holds no page.
const EMPTY_LOG: u64 = 41;

/// The path of the log that an opening would add to what stands at this path, where it stands without one.
///
/// # Errors
///
/// `CannotOpen` where something stands at the path that can't be read, or is neither a file of no byte nor one that may be a
/// database, or where what would be beside it is no file. `OutOfMemory` where memory was wanting.
pub(crate) fn log_to_add(rt: &HostRuntime, path: &str) -> Result<Option<String>, Error> {
    match looked_at(rt, path) {
        Ok(log) => Ok(log),
        Err(error) if error.kind() == ErrorKind::OutOfMemory => {
            Err(Error::SqliteFailure(ErrorCode::OutOfMemory))
        }
        Err(_) => Err(Error::SqliteFailure(ErrorCode::CannotOpen)),
    }
}

/// Takes away the log that a refused opening added, while the file is still locked. One that holds a page stays.
pub(crate) fn take_away(rt: &HostRuntime, log: &Option<String>) {
    let Some(log) = log else {
        return;
    };
    if let Ok(found) = fs::metadata(rt, log.as_str()) {
        if found.len() <= EMPTY_LOG {
            let _ = fs::remove_file(rt, log.as_str());
        }
    }
}

fn looked_at(rt: &HostRuntime, path: &str) -> io::Result<Option<String>> {
    match fs::canonicalize(rt, path) {
        Ok(real) => looked_at_file(rt, real.as_str()),
        Err(error) if error.kind() == ErrorKind::NotFound => {
            beside_none(rt, path)?;
            Ok(None)
        }
        Err(error) => Err(error),
    }
}

// Where no file stands yet, a log that can't be made, or a journal, would be refused only after the file was made.
fn beside_none(rt: &HostRuntime, path: &str) -> io::Result<()> {
    let log = format!(in rt.alloc(); "{path}-wal")?;
    stands(rt, log.as_str())?;
    let journal = format!(in rt.alloc(); "{path}-journal")?;
    if stands(rt, journal.as_str())? {
        return Err(ErrorKind::AlreadyExists.into());
    }
    Ok(())
}

fn looked_at_file(rt: &HostRuntime, path: &str) -> io::Result<Option<String>> {
    let log = format!(in rt.alloc(); "{path}-wal")?;
    let has_log = stands(rt, log.as_str())?;
    stands(rt, path)?;
    let (length, first) = begin_of(rt, path)?;
    if !may_open(&first, length, has_log) {
        return Err(ErrorKind::InvalidData.into());
    }
    Ok(if length > 0 && !has_log {
        Some(log)
    } else {
        None
    })
}

// Whether a file stands there. What is no file, as a folder, is an error, and is not opened: a pipe would wait.
fn stands(rt: &HostRuntime, path: &str) -> io::Result<bool> {
    match fs::symlink_metadata(rt, path) {
        Ok(found) if found.is_file() => Ok(true),
        Ok(_) => Err(ErrorKind::Unsupported.into()),
        Err(error) if error.kind() == ErrorKind::NotFound => Ok(false),
        Err(error) => Err(error),
    }
}

// The length of the file and its first bytes, which are zeros past its end.
fn begin_of(rt: &HostRuntime, path: &str) -> io::Result<(u64, [u8; 16])> {
    let mut file = fs::open(rt, path)?;
    let length = file.metadata()?.len();
    let mut first = [0; 16];
    let mut read = 0;
    for _ in 0..16 {
        if read < 16 {
            read += file.read(&mut first[read..])?;
        }
    }
    Ok((length, first))
}

// Whether the database may open a file of this length, which begins so: one of no byte, one that begins as each database does,
// or one that a first opening left half made, whose first byte is written last and whose log is begun before.
fn may_open(first: &[u8], length: u64, has_log: bool) -> bool
    ensures { IsTrue result ↔ MayOpen first.now length has_log }
{
    length == 0 || first == HEAD.as_slice() || is_half_made(first, length, has_log)
}

fn is_half_made(first: &[u8], length: u64, has_log: bool) -> bool
    ensures { IsTrue result ↔ IsHalfMade first.now length has_log }
{
    has_log && length <= PAGE && first.first().copied() == Some(0)
}
