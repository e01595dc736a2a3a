//! A worker's run over a book that threads share, which shows in a mirror what it published.
ghost use Rattle.std.specs.Prelude.{◌≡◌};
ghost use Rattle.stock_model.specs.History.{covered_records};
ghost use Rattle.turn_lock.specs.Histories.{BeginsWith};
ghost use Rattle.session_laws.specs.Makers.{without_makers};
ghost use Rattle.repost_worker.specs.Turns.{IsWorkOf};
ghost use Rattle.mirrored_worker.specs.MirroredRuns.{IsMirroredRun};

use crate::shown_turn::{MAX_TURNS, ShownTurn, show_turn};
use generation_book::book::Book;
use locked_worker::gate::{Gate, Go};
use report_mirror::mirror::MirrorWriter;
use repost_build::build::Build;
use repost_worker::turn::Turned;
use std::alloc::Global;
use std::sync::Wait;
use std::sync::ledger::Ledger;
use stock_keeper::keeper::Keeper;
use stock_nums::steps::Steps;
use turn_lock::lock::TurnLock;
use turn_lock::pass::Pass;

/// What a run left: the pass, and who shows.
pub struct Mirroring<K: Keeper> {
    pub pass: Pass<Book<K>>,
    pub writer: MirrorWriter,
}

/// Makes turns with pass 0 of the lock until the gate says to stop, or the pass had 2^57 turns. After each turn that published it takes
/// the lock once more and shows what is published. Looks count as turns of the pass. For want of memory the mirror shows what it did.
///
/// The gate is asked before each turn, with nothing held, and is given the result of the turn before: at first `Ok(Idle)`. It is not told
/// of looks. A turn that is refused is made anew where the gate lets the worker go on.
pub fn run_mirrored<K: Keeper, G: Gate, L: Ledger, R: Wait>(
    rt: &R,
    alloc: Global,
    lock: &TurnLock<Book<K>>,
    pass: Pass<Book<K>>,
    build: &mut Build,
    gate: &mut G,
    writer: MirrorWriter,
    steps: &mut Steps<L>,
) -> Mirroring<K>
    requires same_lock { pass.lock ≡ lock.now.lock }
    requires zero { pass.view.number ≡ 0 }
    requires work { IsWorkOf (without_makers pass.view.seen) build.old }
    requires shown { BeginsWith (covered_records (without_makers pass.view.seen)) writer }
    ensures same_lock { result.pass.lock ≡ pass.lock }
    ensures work { IsWorkOf (without_makers result.pass.view.seen) build.new }
    ensures run { IsMirroredRun pass.view build.old writer steps.old (G.told gate.old)
        result.pass.view build.new result.writer steps.new (G.told gate.new) }
    ensures rest { result.pass.view ≡ record pass.view { seen = result.pass.view.seen; seen_faults = result.pass.view.seen_faults; made = result.pass.view.made; stops = result.pass.view.stops; faults = result.pass.view.faults } }
    ensures shown { BeginsWith (covered_records (without_makers result.pass.view.seen)) result.writer }
    ensures grows { BeginsWith result.writer writer }
{
    let mut pass = pass;
    let mut writer = writer;
    let mut last = Ok(Turned::Idle);
    for _ in rt.forever() {
        if pass.gives() >= MAX_TURNS {
            return Mirroring { pass, writer };
        }
        if let Go::Stop = gate.next(&last) {
            return Mirroring { pass, writer };
        }
        let turn = show_turn(rt, alloc, lock, pass, build, writer, steps);
        ShownTurn {
            pass,
            writer,
            result: last,
        } = turn;
    }
    unreachable!()
}
