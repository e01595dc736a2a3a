//! What a worker does while it holds the lock: it copies new records out of the journal, or hands over rows that were made before.
ghost use Rattle.std.specs.Prelude.{◌≡◌, ◌^◌, ◌<◌, [], length, IfOk, IfErr, OnErr};
ghost use Rattle.stock_model.specs.History.{covered};
ghost use Rattle.stock_keeper.specs.Calls.{IsRefused, AreDone};
ghost use Rattle.session_laws.specs.Makers.{without_makers};
ghost use Rattle.repost_build.specs.Readings.{target_of};
ghost use Rattle.repost_worker.specs.Publications.{IsPublicationOf};
ghost use Rattle.repost_worker.specs.Turns.{records_of, IsWorkOf, IsCleanOf, CanFetch};
ghost use Rattle.locked_worker.specs.LockedTurns.{IsRefusedTurn};
ghost use Rattle.locked_worker.specs.Stopped.{IsAheadOf, IsStoppedOn, IsStoppedAt, publications_at};

use crate::ahead::Ahead;
use generation_book::book::Book;
use repost_build::build::Build;
use repost_fetch::fetch::Fetched;
use repost_worker::publication::Publication;
use repost_worker::turn::can_fetch;
use shared_list::blocks::SharedBlocks;
use std::alloc::Global;
use std::sync::Wait;
use stock_keeper::fault::KeepFault;
use stock_keeper::keeper::Keeper;
use stock_nums::entry::Row;
use stock_nums::memory::NoMemory;
use stock_nums::numbers::RecordNo;
use turn_lock::lock::TurnLock;
use turn_lock::pass::Pass;

/// What was done at a stop. What is left of it needs no lock.
#[derive(Drop)]
pub(crate) enum Stopped {
    /// So many records were accepted, and what the build has not taken in was copied out.
    Fetched(RecordNo, Fetched),
    /// So many records were published, and these are the rows that reports were made from before.
    Published(RecordNo, SharedBlocks<Row>),
    /// There was nothing to do.
    Idle,
}

/// What a stop left: the pass, and what was done or why it was refused.
#[derive(Drop)]
pub(crate) struct Halt<K: Keeper> {
    pub(crate) pass: Pass<Book<K>>,
    pub(crate) result: Result<Stopped, KeepFault>,
}

/// Takes the lock, for a build without a suspect, and gives it back. It is held while what was accepted since is copied out, or
/// while the keeper has what is published and the rows that were made ahead are put in place of those before, or for nothing.
///
/// # Errors
///
/// `Failed`: the keeper failed at a publication. `NoMemory`: memory was wanting, also for what was made ahead.
pub(crate) fn stop<K: Keeper, R: Wait>(
    rt: &R,
    alloc: Global,
    lock: &TurnLock<Book<K>>,
    pass: Pass<Book<K>>,
    build: &Build,
    ahead: &Ahead,
) -> Halt<K>
    requires same_lock { pass.lock ≡ lock.now.lock }
    requires zero { pass.view.number ≡ 0 }
    requires few_turns { length pass.view.stops < 2 ^ 57 }
    requires work { IsWorkOf (without_makers pass.view.seen) build.now }
    requires clean { IsCleanOf (without_makers pass.view.seen) build.now }
    requires ahead { IsAheadOf (records_of (without_makers pass.view.seen) build.now) build.now ahead.now }
    ensures same_lock { result.pass.lock ≡ pass.lock }
    ensures stopped { IfOk result.result (λ stopped. IsStoppedAt pass.view build.now stopped result.pass.view) }
    ensures refused { IfErr result.result (λ fault. IsRefusedTurn fault pass.view result.pass.view) }
    ensures work { OnErr result.result (IsWorkOf (without_makers result.pass.view.seen) build.now) }
{
    let mut held = lock.take(rt, pass);
    let result = stop_on(alloc, held.book(), build, ahead);
    Halt {
        pass: lock.give(held),
        result,
    }
}

// Does at a stop what there is to do: copies out what was accepted since, where it may be fetched, and else publishes what was made
// ahead.
fn stop_on<K: Keeper>(
    alloc: Global,
    book: &mut Book<K>,
    build: &Build,
    ahead: &Ahead,
) -> Result<Stopped, KeepFault>
    requires work { IsWorkOf book.old.history build.now }
    requires ahead { IsAheadOf (records_of book.old.history build.now) build.now ahead.now }
    ensures stopped { IfOk result (λ stopped. IsStoppedOn book.old.history build.now stopped book.new.history) }
    ensures done { IfOk result (λ stopped. AreDone (publications_at stopped) book.old.keeper book.new.keeper) }
    ensures refused { IfErr result (λ fault. IsRefused fault book.old.keeper book.new.keeper) }
    ensures book_stays { OnErr result (book.new.history ≡ book.old.history) }
{
    if can_fetch(book, build) {
        let copied = copy_out(alloc, book, build)?;
        return Ok(copied);
    }
    match ahead {
        Ahead::Nothing => Ok(Stopped::Idle),
        Ahead::Ready(ready) => publish_ready(alloc, book, build, ready),
        Ahead::Wanting => Err(KeepFault::NoMemory),
    }
}

// What the records bring and take back that the build has not taken in.
fn copy_out<K: Keeper>(alloc: Global, book: &Book<K>, build: &Build) -> Result<Stopped, NoMemory>
    requires work { IsWorkOf book.now.history build.now }
    requires waiting { CanFetch book.now.history build.now }
    ensures { IfOk result (λ stopped. (publications_at stopped ≡ []) × IsStoppedOn book.now.history build.now stopped book.now.history) }
{
    let accepted = book.accepted();
    let fetched = book.fetch(alloc, build.target())?;
    Ok(Stopped::Fetched(accepted, fetched))
}

// Publishes what was made ahead of all that the build is of.
fn publish_ready<K: Keeper>(
    alloc: Global,
    book: &mut Book<K>,
    build: &Build,
    ready: &Publication,
) -> Result<Stopped, KeepFault>
    requires work { IsWorkOf book.old.history build.now }
    requires later { covered book.old.history < target_of build.now }
    requires none { CanFetch book.old.history build.now → ⊥ }
    requires ready { IsPublicationOf (records_of book.old.history build.now) build.now ready.now }
    ensures stopped { IfOk result (λ stopped. IsStoppedOn book.old.history build.now stopped book.new.history) }
    ensures done { IfOk result (λ stopped. AreDone (publications_at stopped) book.old.keeper book.new.keeper) }
    ensures refused { IfErr result (λ fault. IsRefused fault book.old.keeper book.new.keeper) }
    ensures book_stays { OnErr result (book.new.history ≡ book.old.history) }
{
    let target = build.target();
    let changed = ready.changed.as_slice();
    let before = book.publish(alloc, target, &ready.rows, changed, build.gone())?;
    Ok(Stopped::Published(target, before))
}
