//! A look at the book under its lock, after which the mirror shows what is published there.
ghost use Rattle.std.specs.Prelude.{◌≡◌, ◌^◌, ◌<◌, length, IfOk, OnOk, OnErr};
ghost use Rattle.stock_model.specs.History.{covered_records};
ghost use Rattle.turn_lock.specs.Histories.{BeginsWith};
ghost use Rattle.session_laws.specs.Makers.{without_makers};
ghost use Rattle.mirrored_worker.specs.Looks.{IsLook};

use crate::next_generation::next_generation;
use generation_book::book::Book;
use report_mirror::generation::Generation;
use report_mirror::mirror::{MirrorWriter, Showed};
use std::alloc::Global;
use std::sync::Wait;
use stock_keeper::keeper::Keeper;
use stock_nums::memory::NoMemory;
use turn_lock::lock::TurnLock;
use turn_lock::pass::Pass;

/// What a look left: the pass, who shows, and whether there was memory to show what was found.
pub struct Showing<K: Keeper> {
    pub pass: Pass<Book<K>>,
    pub writer: MirrorWriter,
    pub result: Result<(), NoMemory>,
}

/// Takes the lock once with its pass 0, and shows what is published there. Under the lock the records are copied that are not shown yet, and
/// few of the others, and the rows, items and warehouses are shared; it is shown once the lock was given back. It may wait for the lock,
/// and for who still reads what was shown before.
///
/// # Errors
///
/// `NoMemory`: memory was wanting, and the mirror shows what it did.
pub fn show_published<K: Keeper, R: Wait>(
    rt: &R,
    alloc: Global,
    lock: &TurnLock<Book<K>>,
    pass: Pass<Book<K>>,
    writer: MirrorWriter,
) -> Showing<K>
    requires same_lock { pass.lock ≡ lock.now.lock }
    requires zero { pass.view.number ≡ 0 }
    requires few_turns { length pass.view.stops < 2 ^ 57 }
    requires shown { BeginsWith (covered_records (without_makers pass.view.seen)) writer }
    ensures same_lock { result.pass.lock ≡ pass.lock }
    ensures look { IsLook pass.view result.pass.view }
    ensures all_shown { OnOk result.result (result.writer ≡ covered_records (without_makers result.pass.view.seen)) }
    ensures unchanged { OnErr result.result (result.writer ≡ writer) }
    ensures shown { BeginsWith (covered_records (without_makers result.pass.view.seen)) result.writer }
    ensures grows { BeginsWith result.writer writer }
{
    let Found { pass, next } = look(rt, alloc, lock, pass, writer.shown());
    match next {
        Ok(next) => {
            let Showed { writer, result } = writer.show(rt, alloc, next);
            Showing {
                pass,
                writer,
                result,
            }
        }
        Err(NoMemory) => Showing {
            pass,
            writer,
            result: Err(NoMemory),
        },
    }
}

// What was found at a look, and the pass.
struct Found<K: Keeper> {
    pass: Pass<Book<K>>,
    next: Result<Generation, NoMemory>,
}

// Takes the lock once, for the generation that is to be shown next.
fn look<K: Keeper, R: Wait>(
    rt: &R,
    alloc: Global,
    lock: &TurnLock<Book<K>>,
    pass: Pass<Book<K>>,
    shown: &Generation,
) -> Found<K>
    requires same_lock { pass.lock ≡ lock.now.lock }
    requires zero { pass.view.number ≡ 0 }
    requires few_turns { length pass.view.stops < 2 ^ 57 }
    requires shown { BeginsWith (covered_records (without_makers pass.view.seen)) shown.now }
    ensures same_lock { result.pass.lock ≡ pass.lock }
    ensures look { IsLook pass.view result.pass.view }
    ensures next { IfOk result.next (λ next. next ≡ covered_records (without_makers result.pass.view.seen)) }
    ensures grows { BeginsWith (covered_records (without_makers result.pass.view.seen)) shown.now }
{
    let mut held = lock.take(rt, pass);
    let next = next_generation(alloc, held.book(), shown);
    Found {
        pass: lock.give(held),
        next,
    }
}
