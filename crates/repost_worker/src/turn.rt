//! One turn of the policy: value the first suspect, else fetch what was accepted since, else publish, else idle.
ghost use Rattle.std.specs.Prelude.{◌≡◌, ◌+◌, ◌<◌, ◌↔◌, ◌++◌, [], ◌∷◌, List, IsTrue, IfOk, IfErr, OnOk, OnErr};
ghost use Rattle.stock_model.specs.History.{records, accepted, covered};
ghost use Rattle.stock_model.specs.declared.deeds.Deed.TheVariants as deed;
ghost use Rattle.stock_model.specs.declared.records.Record.{Record};
ghost use Rattle.stock_keeper.specs.Calls.{IsDone, IsRefused, AreDone};
ghost use Rattle.repost_build.specs.Readings.{target_of, IsUnchanged};
ghost use Rattle.repost_worker.specs.Turns.{IsWorkOf, IsCleanOf, CanFetch, CanPublish, IsFetched, IsPublished, IsTurnTo, publications, valuations};

use crate::publication::Publication;
use generation_book::book::Book;
use repost_build::build::Build;
use std::alloc::Global;
use std::sync::ledger::Ledger;
use stock_keeper::fault::KeepFault;
use stock_keeper::keeper::Keeper;
use stock_nums::memory::NoMemory;
use stock_nums::numbers::RecordNo;
use stock_nums::place::Place;
use stock_nums::steps::Steps;

/// From one publication to the next a build fetches at most so often. Then it publishes, however many records wait.
pub const MAX_FETCHES: u32 = 4;

/// What a turn did.
#[derive(Clone, Copy, Debug, PartialEq, Eq)]
pub enum Turned {
    /// It valued the movement at this place, the first suspect.
    Valued(Place),
    /// It fetched the records that were accepted since: so many are known to the build now.
    Fetched(RecordNo),
    /// It published so many records.
    Published(RecordNo),
    /// There was nothing to do.
    Idle,
}

impl Turned {
    /// Whether there was nothing to do.
    pub fn is_idle(self) -> bool
        ensures { IsTrue result ↔ (self ≡ Turned.Idle) }
    {
        matches!(self, Turned::Idle)
    }
}

/// Does the first of these that there is: values the first suspect; fetches the records that were accepted since, where fewer
/// than 4 fetches were made since the last publication; publishes what the build is of; and else nothing. A valuation counts one
/// step and takes no memory. A refusal changes neither the history nor the build.
///
/// # Errors
///
/// `Failed`: the keeper failed at a publication. `NoMemory`: memory was wanting for a fetch or a publication.
pub fn turn_on<K: Keeper, L: Ledger>(
    alloc: Global,
    book: &mut Book<K>,
    build: &mut Build,
    steps: &mut Steps<L>,
) -> Result<Turned, KeepFault>
    requires work { IsWorkOf book.old.history build.old }
    ensures work { IsWorkOf book.new.history build.new }
    ensures turn { IfOk result (λ turned. IsTurnTo book.old.history build.old turned book.new.history build.new) }
    ensures steps { IfOk result (λ turned. steps.new ≡ steps.old + valuations turned) }
    ensures done { IfOk result (λ turned. AreDone (publications turned) book.old.keeper book.new.keeper) }
    ensures refused { IfErr result (λ fault. IsRefused fault book.old.keeper book.new.keeper) }
    ensures due { IfErr result (λ fault. fault ≡ KeepFault.Failed → CanPublish book.old.history build.old) }
    ensures book_stays { OnErr result (book.new.history ≡ book.old.history) }
    ensures build_stays { OnErr result (IsUnchanged build.old build.new) }
    ensures no_steps { OnErr result (steps.new ≡ steps.old) }
{
    turn_of(alloc, book, build, steps)
}

// The turn, of a book with these records.
fn turn_of<K: Keeper, L: Ledger>(
    alloc: Global,
    book: &mut Book<K>,
    build: &mut Build,
    steps: &mut Steps<L>,
) -> Result<Turned, KeepFault>
    ghost all: { List Record }
    requires records { records book.old.history ≡ all }
    requires work { IsWorkOf book.old.history build.old }
    ensures work { IsWorkOf book.new.history build.new }
    ensures turn { IfOk result (λ turned. IsTurnTo book.old.history build.old turned book.new.history build.new) }
    ensures steps { IfOk result (λ turned. steps.new ≡ steps.old + valuations turned) }
    ensures done { IfOk result (λ turned. AreDone (publications turned) book.old.keeper book.new.keeper) }
    ensures refused { IfErr result (λ fault. IsRefused fault book.old.keeper book.new.keeper) }
    ensures due { IfErr result (λ fault. fault ≡ KeepFault.Failed → CanPublish book.old.history build.old) }
    ensures book_stays { OnErr result (book.new.history ≡ book.old.history) }
    ensures build_stays { OnErr result (IsUnchanged build.old build.new) }
    ensures no_steps { OnErr result (steps.new ≡ steps.old) }
{
    if let Some(place) = build.turn(steps) {
        return Ok(Turned::Valued(place));
    }
    if can_fetch(book, build) {
        let accepted = fetch_all(alloc, book, build)?;
        return Ok(Turned::Fetched(accepted));
    }
    if book.covered().0 < build.target().0 {
        let target = publish_all(alloc, book, build)?;
        return Ok(Turned::Published(target));
    }
    Ok(Turned::Idle)
}

/// Whether records wait that the next turn may fetch: fewer than 4 fetches were made since the last publication. It takes no
/// memory.
pub fn can_fetch<K: Keeper>(book: &Book<K>, build: &Build) -> bool
    ensures { IsTrue result ↔ CanFetch book.now.history build.now }
{
    build.target().0 < book.accepted().0 && build.fetches() < MAX_FETCHES
}

// The build takes in all records that it has not, and it is answered how many there are.
fn fetch_all<K: Keeper>(
    alloc: Global,
    book: &Book<K>,
    build: &mut Build,
) -> Result<RecordNo, NoMemory>
    ghost all: { List Record }
    requires records { records book.now.history ≡ all }
    requires work { IsWorkOf book.now.history build.old }
    requires waiting { CanFetch book.now.history build.old }
    ensures work { IsWorkOf book.now.history build.new }
    ensures number { IfOk result (λ n. n.0 ≡ accepted book.now.history) }
    ensures fetched { OnOk result (IsFetched book.now.history build.old build.new) }
    ensures unchanged { OnErr result (IsUnchanged build.old build.new) }
{
    let accepted = book.accepted();
    let fetched = book.fetch(alloc, build.target())?;
    build.extend(alloc, &fetched)?;
    Ok(accepted)
}

// All records of a build without a suspect are published, and it is answered how many they are.
fn publish_all<K: Keeper>(
    alloc: Global,
    book: &mut Book<K>,
    build: &mut Build,
) -> Result<RecordNo, KeepFault>
    ghost all: { List Record }
    requires records { records book.old.history ≡ all }
    requires work { IsWorkOf book.old.history build.old }
    requires clean { IsCleanOf book.old.history build.old }
    requires later { covered book.old.history < target_of build.old }
    ensures work { IsWorkOf book.new.history build.new }
    ensures number { IfOk result (λ n. n.0 ≡ target_of build.old) }
    ensures told { IfOk result (λ n. book.new.history ≡ book.old.history ++ deed.Published n ∷ []) }
    ensures published { OnOk result (IsPublished build.old build.new) }
    ensures done { OnOk result (IsDone book.old.keeper book.new.keeper) }
    ensures refused { IfErr result (λ fault. IsRefused fault book.old.keeper book.new.keeper) }
    ensures book_stays { OnErr result (book.new.history ≡ book.old.history) }
    ensures build_stays { OnErr result (build.new ≡ build.old) }
{
    let target = build.target();
    let ready = Publication::of(alloc, build)?;
    let changed = ready.changed.as_slice();
    book.publish(alloc, target, &ready.rows, changed, build.gone())?;
    build.published(ready.rows);
    Ok(target)
}
