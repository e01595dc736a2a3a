//! A shelf whose keepers are files.
ghost use Rattle.std.specs.Prelude.{◌≡◌, false, true, Err, IsTrue, IfOk, OnOk};
ghost use Rattle.stock_io.specs.Counts.{NeverFalls, raised};
ghost use Rattle.stock_keeper.specs.Keeping.{Within};
ghost use Rattle.stock_keeper.specs.declared.fault.KeepFault.TheVariants as fault;
ghost use Rattle.sqlite_tables.specs.Finding.{WasPrepared};
ghost use Rattle.sqlite_tables.specs.Sorted.{IsUnchanged, KnowsOrder};
ghost use Rattle.sqlite_tables.specs.Stored.{TellsTables, MayLeaveTables};

use crate::refusing::{counted, refused};
use crate::sqlite_keeper::SqliteKeeper;
use crate::standing;
use sqlite::{Alter, Connection, FileFrom, FileStore, Start};
use stock_keeper::fault::KeepFault;
use stock_keeper::opened_path::OpenedPath;
use stock_keeper::shelf::Shelf;

/// A shelf whose keepers are files. It tells its faults and those of the keeper that was put back last, the path that was opened last
/// and how often one was, and no plan. A file is locked while its keeper is out. `B` stands for what the file and its log hold as they
/// are first opened: until then the shelf tells the tables of the ledger that they hold, if they hold one. What is proved over `B` is
/// proved for all contents. No clause says that the system opens the file at the path.
#[derive(Drop)]
pub struct SqliteShelf<B: Start + Copy> {
    rt: HostRuntime,
    start: B,
    is_fresh: bool,
    faults: u64,
    kept_faults: u64,
    opened: Option<OpenedPath>,
    openings: u64,
}

impl<B: Start + Copy> SqliteShelf<B> {
    /// A shelf that had no fault yet, over a file of which this is supposed. It opens nothing.
    pub fn new(rt: &HostRuntime, start: B) -> SqliteShelf<B>
        ensures fresh { result.is_fresh ≡ true }
        ensures faults { result.faults ≡ 0 }
        ensures kept_faults { result.kept_faults ≡ 0 }
    {
        SqliteShelf {
            rt: *rt,
            start,
            is_fresh: true,
            faults: 0,
            kept_faults: 0,
            opened: None,
            openings: 0,
        }
    }

    /// How many openings failed, for another cause than want of memory. The count stays at `u64::MAX`.
    pub fn faults(&self) -> u64
        ensures { result ≡ self.now.faults }
    {
        self.faults
    }

    /// How many faults the keeper had that was put back last. 0 before any.
    pub fn kept_faults(&self) -> u64
        ensures { result ≡ self.now.kept_faults }
    {
        self.kept_faults
    }
}

impl<B: Start + Copy + Send> Shelf for SqliteShelf<B> {
    type Kept = SqliteKeeper<FileStore<FileFrom<B>>>;

    ghost use Rattle.std.specs.Prelude.{None};
    ghost use Rattle.sqlite_wal.specs.Files.{image_at};
    ghost use Rattle.keeper_sqlite.specs.Shelved.{HoldsLedger};

    ghost tells = { λ s t. IsTrue s.is_fresh × HoldsLedger (image_at B.Start) t };

    ghost plan = { λ _. None };

    ghost faults = { λ s. s.faults };

    ghost kept_faults = { λ s. s.kept_faults };

    ghost opened = { λ s. s.opened };

    ghost openings = { λ s. s.openings };

    // The file is made where it isn't there. Tables of version 1 become those of the version that is written now. One that another process has open fails at once, and so does one that can't be opened or written,
    // that isn't a database, or that has something in it and not exactly a ledger's tables: nothing is changed there, and no file
    // is left that wasn't there; of another database that a crash left with a log, what stands in the log behind the last commit
    // may be cut. Tables of these names with other columns are refused too, and so are those that can't be read.
    fn open_keeper(
        &mut self,
        path: &str,
    ) -> Result<SqliteKeeper<FileStore<FileFrom<B>>>, KeepFault> {
        self.is_fresh = false;
        self.opened = Some(OpenedPath::of(path));
        self.openings = self.openings.saturating_add(1);
        let log = match standing::log_to_add(&self.rt, path) {
            Ok(log) => log,
            Err(error) => return Err(refused(error, &mut self.faults)),
        };
        match Connection::open_from(&self.rt, path, false, self.start) {
            Ok(conn) => kept_in(&self.rt, conn, &log, &mut self.faults),
            Err((error, left)) => {
                if left.is_some() {
                    standing::take_away(&self.rt, &log);
                }
                Err(refused(error, &mut self.faults))
            }
        }
    }

    // What was committed stays in the file and its log beside it, so it is there at the next opening also where
    // the log can't be copied into the file.
    fn put_back(&mut self, kept: SqliteKeeper<FileStore<FileFrom<B>>>) {
        self.is_fresh = false;
        self.kept_faults = kept.faults();
        let _ = kept.into_connection().close();
    }
}

// A keeper over an open file. The log that the opening added goes while the file is locked, where the keeper is refused.
fn kept_in<S: Alter + Drop>(
    rt: &HostRuntime,
    conn: Connection<S>,
    log: &Option<String>,
    faults: &mut u64,
) -> Result<SqliteKeeper<S>, KeepFault>
    requires unchanged { IsUnchanged S.Store conn }
    requires order { KnowsOrder S.Store conn }
    ensures fresh { IfOk result (λ keeper. keeper.faults ≡ 0) }
    ensures told { IfOk result (λ keeper. WasPrepared S.Store conn keeper.tables) }
    ensures durable { IfOk result (λ keeper. Within (TellsTables S.Store keeper.tables) (MayLeaveTables S.Store keeper.tables)) }
    ensures faults_kept { OnOk result (faults.new ≡ faults.old) }
    ensures fault { result ≡ Err fault.Failed → faults.new ≡ raised faults.old }
    ensures never_falls { NeverFalls faults.old faults.new }
{
    match SqliteKeeper::prepared_in_order(rt.alloc(), conn) {
        Ok(keeper) => Ok(keeper),
        Err((fault, left)) => {
            standing::take_away(rt, log);
            drop(left);
            Err(counted(fault, faults))
        }
    }
}
