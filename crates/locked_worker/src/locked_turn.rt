//! One turn of the policy over a book that threads share. The lock is taken where the build has no suspect, once, and is held
//! while new records are copied out of the journal, or while the keeper has what is published and the rows change hands. What goes
//! over the whole build is done before or after: the rows are made, new records are taken in, rows that were published are freed.
ghost use Rattle.std.specs.Prelude.{◌≡◌, ◌+◌, ◌^◌, ◌<◌, List, length, IfOk, IfErr, OnErr};
ghost use Rattle.stock_model.specs.History.{records};
ghost use Rattle.stock_model.specs.declared.records.Record.{Record};
ghost use Rattle.session_laws.specs.Makers.{without_makers};
ghost use Rattle.repost_build.specs.Readings.{IsUnchanged};
ghost use Rattle.locked_worker.specs.LockedTurns.{IsLockedTurn, IsTurnAtStop, IsRefusedTurn};
ghost use Rattle.repost_worker.specs.Turns.{IsWorkOf, IsCleanOf, valuations};

use crate::after_stop::after_stop;
use crate::ahead::Ahead;
use crate::stop::{Halt, stop};
use generation_book::book::Book;
use repost_build::build::Build;
use repost_worker::turn::Turned;
use std::alloc::Global;
use std::sync::Wait;
use std::sync::ledger::Ledger;
use stock_keeper::fault::KeepFault;
use stock_keeper::keeper::Keeper;
use stock_nums::steps::Steps;
use turn_lock::lock::TurnLock;
use turn_lock::pass::Pass;

/// What a turn left: the pass, and what the turn did or why it was refused.
#[derive(Drop)]
pub struct Worked<K: Keeper> {
    pub pass: Pass<Book<K>>,
    pub result: Result<Turned, KeepFault>,
}

/// Does what `turn_on` does, for a build that works for what pass 0 of the lock has seen of its book. The first suspect is valued
/// without the lock. Where there is none, what may be published is made ahead, and then the lock is taken once, and what was
/// accepted since is known: where that is fetched, what was made ahead is dropped. It may wait for the lock. A refusal changes
/// neither the history nor the build.
///
/// # Errors
///
/// `Failed`: the keeper failed at a publication. `NoMemory`: memory was wanting for a fetch or a publication.
pub fn work_one<K: Keeper, L: Ledger, R: Wait>(
    rt: &R,
    alloc: Global,
    lock: &TurnLock<Book<K>>,
    pass: Pass<Book<K>>,
    build: &mut Build,
    steps: &mut Steps<L>,
) -> Worked<K>
    requires same_lock { pass.lock ≡ lock.now.lock }
    requires zero { pass.view.number ≡ 0 }
    requires few_turns { length pass.view.stops < 2 ^ 57 }
    requires work { IsWorkOf (without_makers pass.view.seen) build.old }
    ensures same_lock { result.pass.lock ≡ pass.lock }
    ensures work { IsWorkOf (without_makers result.pass.view.seen) build.new }
    ensures turn { IfOk result.result (λ turned. IsLockedTurn pass.view build.old turned result.pass.view build.new) }
    ensures refused { IfErr result.result (λ fault. IsRefusedTurn fault pass.view result.pass.view) }
    ensures steps { IfOk result.result (λ turned. steps.new ≡ steps.old + valuations turned) }
    ensures build_stays { OnErr result.result (IsUnchanged build.old build.new) }
    ensures no_steps { OnErr result.result (steps.new ≡ steps.old) }
{
    work_of(rt, alloc, lock, pass, build, steps)
}

// The turn, of a pass that has seen these records.
fn work_of<K: Keeper, L: Ledger, R: Wait>(
    rt: &R,
    alloc: Global,
    lock: &TurnLock<Book<K>>,
    pass: Pass<Book<K>>,
    build: &mut Build,
    steps: &mut Steps<L>,
) -> Worked<K>
    ghost all: { List Record }
    requires records { records (without_makers pass.view.seen) ≡ all }
    requires same_lock { pass.lock ≡ lock.now.lock }
    requires zero { pass.view.number ≡ 0 }
    requires few_turns { length pass.view.stops < 2 ^ 57 }
    requires work { IsWorkOf (without_makers pass.view.seen) build.old }
    ensures same_lock { result.pass.lock ≡ pass.lock }
    ensures work { IsWorkOf (without_makers result.pass.view.seen) build.new }
    ensures turn { IfOk result.result (λ turned. IsLockedTurn pass.view build.old turned result.pass.view build.new) }
    ensures refused { IfErr result.result (λ fault. IsRefusedTurn fault pass.view result.pass.view) }
    ensures steps { IfOk result.result (λ turned. steps.new ≡ steps.old + valuations turned) }
    ensures build_stays { OnErr result.result (IsUnchanged build.old build.new) }
    ensures no_steps { OnErr result.result (steps.new ≡ steps.old) }
{
    match build.turn(steps) {
        Some(place) => Worked {
            pass,
            result: Ok(Turned::Valued(place)),
        },
        None => work_at_stop(rt, alloc, lock, pass, build),
    }
}

// Takes the lock for the turn.
fn work_at_stop<K: Keeper, R: Wait>(
    rt: &R,
    alloc: Global,
    lock: &TurnLock<Book<K>>,
    pass: Pass<Book<K>>,
    build: &mut Build,
) -> Worked<K>
    ghost all: { List Record }
    requires records { records (without_makers pass.view.seen) ≡ all }
    requires same_lock { pass.lock ≡ lock.now.lock }
    requires zero { pass.view.number ≡ 0 }
    requires few_turns { length pass.view.stops < 2 ^ 57 }
    requires work { IsWorkOf (without_makers pass.view.seen) build.old }
    requires clean { IsCleanOf (without_makers pass.view.seen) build.old }
    ensures same_lock { result.pass.lock ≡ pass.lock }
    ensures work { IsWorkOf (without_makers result.pass.view.seen) build.new }
    ensures turn { IfOk result.result (λ turned. IsTurnAtStop pass.view build.old turned result.pass.view build.new) }
    ensures none_valued { IfOk result.result (λ turned. valuations turned ≡ 0) }
    ensures refused { IfErr result.result (λ fault. IsRefusedTurn fault pass.view result.pass.view) }
    ensures build_stays { OnErr result.result (IsUnchanged build.old build.new) }
{
    let ahead = Ahead::of(alloc, build);
    let halt = stop(rt, alloc, lock, pass, build, &ahead);
    let Halt { pass, result } = halt;
    match result {
        Ok(stopped) => after_stop(alloc, pass, build, stopped, ahead),
        Err(fault) => Worked {
            pass,
            result: Err(fault),
        },
    }
}
