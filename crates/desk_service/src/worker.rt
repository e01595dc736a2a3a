//! A worker in a thread of its own, until the desks have ended: its pass, its build and the mirror's writer go in by value, and come back.
ghost use Rattle.std.specs.Prelude.{◌≡◌, ◌<◌};
ghost use Rattle.stock_model.specs.History.{covered_records};
ghost use Rattle.turn_lock.specs.Histories.{BeginsWith};
ghost use Rattle.session_laws.specs.Makers.{without_makers};
ghost use Rattle.repost_worker.specs.Turns.{IsWorkOf};
ghost use Rattle.desk_service.specs.Working.{IsWorked};

use crate::closing::{Closing, Watch};
use crate::ending_writer::EndingWriter;
use crate::gate::UntilShutdown;
use generation_book::book::Book;
use mirrored_worker::run_mirrored::{Mirroring, run_mirrored};
use repost_build::build::Build;
use std::alloc::Global;
use std::sync::Wait;
use std::sync::ledger::{Blank, Ledger};
use stock_keeper::keeper::Keeper;
use stock_nums::steps::Steps;
use turn_lock::lock::TurnLock;
use turn_lock::pass::Pass;

/// Pass 0, and the build that works with it.
#[derive(Drop)]
pub struct Worker<K: Keeper> {
    pub pass: Pass<Book<K>>,
    pub build: Build,
}

/// Works until the desks have ended, and shows what it publishes. It may wait, for the lock, for something to do, and for who still reads
/// what was shown before.
pub fn work<K: Keeper, L: Ledger, W: Wait + Drop, R: Wait>(
    rt: &R,
    alloc: Global,
    lock: &TurnLock<Book<K>>,
    closing: &Closing,
    worker: Worker<K>,
    mirror: EndingWriter<W>,
    blank: Blank,
) -> (Worker<K>, EndingWriter<W>)
    requires same_lock { worker.pass.lock ≡ lock.now.lock }
    requires zero { worker.pass.view.number ≡ 0 }
    requires work { IsWorkOf (without_makers worker.pass.view.seen) worker.build }
    requires shown { BeginsWith (covered_records (without_makers worker.pass.view.seen)) mirror.writer }
    requires name { blank.name ≡ L.name }
    requires parts { blank.parts ≡ L.parts }
    requires some_parts { 0 < L.parts }
    ensures { IsWorked worker.pass worker.build mirror.writer result.0.pass result.0.build result.1.writer }
{
    let Worker { pass, mut build } = worker;
    let (waits, writer) = mirror.into_parts();
    let mut steps = Steps::<L>::new(blank);
    let mut gate = UntilShutdown::new(Watch::new(rt, closing));
    let Mirroring { pass, writer } = run_mirrored(
        rt, alloc, lock, pass, &mut build, &mut gate, writer, &mut steps,
    );
    (Worker { pass, build }, EndingWriter { waits, writer })
}
