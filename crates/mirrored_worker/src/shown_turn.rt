//! One turn of a worker, and what the mirror shows after it.
ghost use Rattle.std.specs.Prelude.{◌≡◌, ◌+◌, ◌^◌, ◌<◌, ◌↔◌, length, IsTrue};
ghost use Rattle.stock_model.specs.History.{covered_records};
ghost use Rattle.turn_lock.specs.Histories.{BeginsWith};
ghost use Rattle.session_laws.specs.Makers.{without_makers};
ghost use Rattle.repost_worker.specs.Turns.{IsWorkOf};
ghost use Rattle.locked_worker.specs.GatedRuns.{PublishesNothing, valuations_with};
ghost use Rattle.mirrored_worker.specs.MirroredRuns.{IsTurnShown};

use crate::show_published::{Showing, show_published};
use generation_book::book::Book;
use locked_worker::locked_turn::{Worked, work_one};
use report_mirror::mirror::MirrorWriter;
use repost_build::build::Build;
use repost_worker::turn::Turned;
use std::alloc::Global;
use std::sync::Wait;
use std::sync::ledger::Ledger;
use stock_keeper::fault::KeepFault;
use stock_keeper::keeper::Keeper;
use stock_nums::steps::Steps;
use turn_lock::lock::TurnLock;
use turn_lock::pass::Pass;

/// So many turns a pass may take.
pub(crate) const MAX_TURNS: u64 = 1 << 57;

/// What a turn left: the pass, who shows, and what the turn did or why it was refused.
pub(crate) struct ShownTurn<K: Keeper> {
    pub(crate) pass: Pass<Book<K>>,
    pub(crate) writer: MirrorWriter,
    pub(crate) result: Result<Turned, KeepFault>,
}

/// Makes a turn, and shows what it published, if the pass may look at it.
pub(crate) fn show_turn<K: Keeper, L: Ledger, R: Wait>(
    rt: &R,
    alloc: Global,
    lock: &TurnLock<Book<K>>,
    pass: Pass<Book<K>>,
    build: &mut Build,
    writer: MirrorWriter,
    steps: &mut Steps<L>,
) -> ShownTurn<K>
    requires same_lock { pass.lock ≡ lock.now.lock }
    requires zero { pass.view.number ≡ 0 }
    requires few_turns { length pass.view.stops < 2 ^ 57 }
    requires work { IsWorkOf (without_makers pass.view.seen) build.old }
    requires shown { BeginsWith (covered_records (without_makers pass.view.seen)) writer }
    ensures same_lock { result.pass.lock ≡ pass.lock }
    ensures work { IsWorkOf (without_makers result.pass.view.seen) build.new }
    ensures turn { IsTurnShown result.result pass.view build.old writer result.pass.view build.new result.writer }
    ensures steps { steps.new ≡ steps.old + valuations_with result.result }
    ensures shown { BeginsWith (covered_records (without_makers result.pass.view.seen)) result.writer }
    ensures grows { BeginsWith result.writer writer }
{
    let Worked { pass, result } = work_one(rt, alloc, lock, pass, build, steps);
    if publishes_nothing(&result) || pass.gives() >= MAX_TURNS {
        return ShownTurn {
            pass,
            writer,
            result,
        };
    }
    let Showing {
        pass,
        writer,
        result: _,
    } = show_published(rt, alloc, lock, pass, writer);
    ShownTurn {
        pass,
        writer,
        result,
    }
}

// Whether the turn left what is published as it was.
fn publishes_nothing(turn: &Result<Turned, KeepFault>) -> bool
    ensures { IsTrue result ↔ PublishesNothing turn.now }
{
    !matches!(turn, Ok(Turned::Published(_)))
}
