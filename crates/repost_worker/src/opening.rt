//! A ledger that was kept is opened again.
ghost use Rattle.std.specs.Prelude.{◌≡◌, ◌≢◌, ◌⊎◌, ◌≤◌, length, OnOk, IfOk, IfErr};
ghost use Rattle.stock_model.specs.History.{records, accepted, covered, settled, IsLegal};
ghost use Rattle.stock_keeper.specs.Calls.{IsDone};
ghost use Rattle.stock_keeper.specs.Keeping.{Within};
ghost use Rattle.stock_keeper.specs.Worths.{AreInOrder};
ghost use Rattle.stock_keeper.specs.declared.tables.Tables.{Tables};
ghost use Rattle.kept_tables.specs.Openings.{AreStored, IsFaultOf};
ghost use Rattle.kept_tables.specs.TablesOf.{tables_of};
ghost use Rattle.repost_worker.specs.Openings.{state_of, opened_history, IsLoaded, IsPosted, IsBadNext, IsUnposted, IsFoundIn, IsAfterFault};
ghost use Rattle.repost_worker.specs.Paces.{IsInPace, IsAtRest, IsSamePace};
ghost use Rattle.repost_worker.specs.Published.{KeepsAlone};

use crate::revalued_book::RevaluedBook;
use kept_tables::checking::{check_worths, covered_of, next_record};
use kept_tables::open_fault::OpenFault;
use std::alloc::Global;
use stock_keeper::fault::KeepFault;
use stock_keeper::keeper::Keeper;
use stock_keeper::nowhere::Nowhere;
use stock_keeper::tables::{StoredRecord, Tables};
use stock_model::faults::PostFault;
use stock_nums::memory::NoMemory;
use stock_nums::numbers::RecordNo;

/// Why a ledger was not opened, and its keeper.
#[derive(Drop)]
pub struct NotOpened<K: Keeper> {
    pub fault: OpenFault,
    pub keeper: K,
}

impl<K: Keeper> RevaluedBook<K> {
    /// The ledger that a keeper keeps, revalued up to where it was published. The head of its tables is checked first, then each
    /// record in order, which are replayed once, and then the worths. It takes a keeper of which a crash leaves just its tables. A
    /// disk may lie while it is read, so what is said of tables is said of those that are told after the load.
    ///
    /// # Errors
    ///
    /// `KeeperFailed` where the keeper failed; `NoMemory` for want of memory; else the first fault of the tables. The keeper is
    /// given back, and its tables stay.
    pub fn begin(alloc: Global, keeper: K) -> Result<RevaluedBook<K>, NotOpened<K>>
        requires settled { Within (K.tells keeper) (K.may_leave keeper) }
        ensures opened { IfOk result (λ book. IsLoaded K.tells K.may_leave keeper book.history) }
        ensures legal { IfOk result (λ book. IsLegal book.history) }
        ensures order { IfOk result (λ book. book.history ≡ opened_history (records book.history) (covered book.history)) }
        ensures at_rest { IfOk result IsAtRest }
        ensures in_pace { IfOk result IsInPace }
        ensures done { IfOk result (λ book. IsDone (state_of (K.faults keeper) (K.plan keeper) (K.calls keeper)) book.keeper) }
        ensures fault { IfErr result (λ n. (t : Tables) → K.tells n.keeper t → IsFaultOf t n.fault) }
        ensures tables_kept { IfErr result (λ n. Within (K.tells keeper) (K.tells n.keeper)) }
        ensures refused { IfErr result (λ n. IsAfterFault n.fault (state_of (K.faults keeper) (K.plan keeper) (K.calls keeper))
            (state_of (K.faults n.keeper) (K.plan n.keeper) (K.calls n.keeper))) }
    {
        let mut keeper = keeper;
        let tables = match keeper.load() {
            Ok(tables) => tables,
            Err(fault) => {
                return Err(NotOpened {
                    fault: unloaded(fault),
                    keeper,
                });
            }
        };
        let book = match opened_from(alloc, &tables) {
            Ok(book) => book,
            Err(fault) => return Err(NotOpened { fault, keeper }),
        };
        Ok(book.with_keeper(keeper))
    }
}

// Why a ledger is not opened whose tables were not loaded.
fn unloaded(fault: KeepFault) -> OpenFault
    ensures failed { fault ≡ KeepFault.Failed → result ≡ OpenFault.KeeperFailed }
    ensures memory { fault ≡ KeepFault.NoMemory → result ≡ OpenFault.NoMemory }
{
    match fault {
        KeepFault::Failed => OpenFault::KeeperFailed,
        KeepFault::NoMemory => OpenFault::NoMemory,
    }
}

// The book that these tables keep.
fn opened_from(alloc: Global, tables: &Tables) -> Result<RevaluedBook<Nowhere>, OpenFault>
    requires in_order { AreInOrder tables.now.worths }
    ensures opened { IfOk result (λ book. tables_of book.history ≡ tables.now) }
    ensures legal { IfOk result (λ book. IsLegal book.history) }
    ensures order { IfOk result (λ book. book.history ≡ opened_history (records book.history) (covered book.history)) }
    ensures at_rest { IfOk result IsAtRest }
    ensures in_pace { IfOk result IsInPace }
    ensures fault { IfErr result (IsFoundIn tables.now) }
{
    let part = match covered_of(tables) {
        Ok(part) => part,
        Err(fault) => return Err(fault),
    };
    let book = match posted(alloc, tables, part) {
        Ok(book) => book,
        Err(fault) => return Err(fault),
    };
    let revalued = book.book();
    if let Err(fault) = check_worths(alloc, tables.worths.as_slice(), revalued.rows()) {
        return Err(fault);
    }
    Ok(book)
}

// The book of all these records, revalued over the first so many.
fn posted(alloc: Global, tables: &Tables, part: usize) -> Result<RevaluedBook<Nowhere>, OpenFault>
    requires within { part ≤ length tables.now.records }
    ensures stored { IfOk result (λ book. AreStored (records book.history) tables.now) }
    ensures all { IfOk result (λ book. accepted book.history ≡ length tables.now.records) }
    ensures covered { IfOk result (λ book. covered book.history ≡ part) }
    ensures order { IfOk result (λ book. book.history ≡ opened_history (records book.history) (covered book.history)) }
    ensures at_rest { IfOk result IsAtRest }
    ensures legal { IfOk result (λ book. IsLegal book.history) }
    ensures fault { IfErr result (IsUnposted tables.now) }
{
    let mut book = RevaluedBook::start(alloc);
    if let Err(fault) = post_between(alloc, &mut book, tables, 0, part) {
        return Err(fault);
    }
    if let Err(_) = settle(alloc, &mut book) {
        return Err(OpenFault::NoMemory);
    }
    if let Err(fault) = post_between(alloc, &mut book, tables, part, tables.records.len()) {
        return Err(fault);
    }
    Ok(book)
}

// Revalues over all records that were posted, and publishes them at once.
fn settle(alloc: Global, book: &mut RevaluedBook<Nowhere>) -> Result<(), NoMemory>
    requires at_rest { IsAtRest book.old }
    requires legal { IsLegal book.old.history }
    ensures history { OnOk result (book.new.history ≡ settled book.old.history) }
    ensures at_rest { OnOk result (IsAtRest book.new) }
    ensures records { OnOk result (records book.new.history ≡ records book.old.history) }
    ensures covered { OnOk result (covered book.new.history ≡ accepted book.old.history) }
    ensures legal { OnOk result (IsLegal book.new.history) }
{
    // A keeper that keeps nothing never fails, so memory alone can be wanting.
    match book.work(alloc, None).stopped {
        Some(_) => Err(NoMemory),
        None => Ok(()),
    }
}

// Posts the stored records from one index to another.
fn post_between(
    alloc: Global,
    book: &mut RevaluedBook<Nowhere>,
    tables: &Tables,
    start: usize,
    end: usize,
) -> Result<(), OpenFault>
    requires stored { AreStored (records book.old.history) tables.now }
    requires before { accepted book.old.history ≡ start }
    requires order { start ≤ end }
    requires within { end ≤ length tables.now.records }
    requires legal { IsLegal book.old.history }
    ensures stored { OnOk result (AreStored (records book.new.history) tables.now) }
    ensures all { OnOk result (accepted book.new.history ≡ end) }
    ensures covered { OnOk result (covered book.new.history ≡ covered book.old.history) }
    ensures kept { OnOk result (KeepsAlone book.old.history book.new.history) }
    ensures pace { OnOk result (IsSamePace book.old book.new) }
    ensures legal { OnOk result (IsLegal book.new.history) }
    ensures fault { IfErr result (IsUnposted tables.now) }
{
    let kept = tables.records.as_slice();
    for index in start..end {
        if let Err(fault) = post_stored(alloc, book, &kept[index]) {
            return Err(fault);
        }
    }
    Ok(())
}

// Posts the record that is kept so as the next one.
fn post_stored(
    alloc: Global,
    book: &mut RevaluedBook<Nowhere>,
    kept: &StoredRecord,
) -> Result<(), OpenFault>
    ensures posted { OnOk result (IsPosted book.old.history kept.now book.new.history) }
    ensures pace { OnOk result (IsSamePace book.old book.new) }
    ensures legal { OnOk result (IsLegal book.new.history) }
    ensures fault { IfErr result (IsBadNext (records book.old.history) kept.now) }
{
    let accepted = book.book().accepted().0;
    let number = RecordNo(accepted + 1);
    let item = match next_record(alloc, number, kept) {
        Ok(item) => item,
        Err(fault) => return Err(fault),
    };
    match book.post(alloc, item) {
        Ok(_) => Ok(()),
        Err(fault) => Err(unposted(fault, number)),
    }
}

// Why a record is not opened that was not posted. A keeper that keeps nothing never fails.
fn unposted(fault: PostFault, number: RecordNo) -> OpenFault
    ensures { (result ≡ OpenFault.NoMemory) ⊎ ((result ≡ OpenFault.BadStored number.0)
        × (fault ≢ PostFault.KeeperFailed) × (fault ≢ PostFault.NoMemory)) }
{
    match fault {
        PostFault::KeeperFailed => OpenFault::NoMemory,
        PostFault::NoMemory => OpenFault::NoMemory,
        _ => OpenFault::BadStored { number: number.0 },
    }
}
