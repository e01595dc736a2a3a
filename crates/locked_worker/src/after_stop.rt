//! What a worker does once it has given the lock back.
ghost use Rattle.std.specs.Prelude.{◌≡◌, List, drop, IfOk, IfErr, OnOk, OnErr};
ghost use Rattle.stock_model.specs.History.{records, IsLegal};
ghost use Rattle.stock_model.specs.declared.deeds.Deed.{Deed};
ghost use Rattle.turn_lock.specs.declared.view.View.{View};
ghost use Rattle.session_laws.specs.Makers.{without_makers};
ghost use Rattle.repost_fetch.specs.Fetched.{IsFetchedOf};
ghost use Rattle.repost_build.specs.Readings.{target_of, IsUnchanged};
ghost use Rattle.repost_worker.specs.Turns.{records_of, IsWorkOf, CanFetch, IsFetched, valuations};
ghost use Rattle.locked_worker.specs.LockedTurns.{IsTurnAtStop, IsRefusedTurn};
ghost use Rattle.locked_worker.specs.Stopped.{IsStoppedAt};

use crate::ahead::Ahead;
use crate::locked_turn::Worked;
use crate::stop::Stopped;
use generation_book::book::Book;
use repost_build::build::Build;
use repost_fetch::fetch::Fetched;
use repost_worker::turn::Turned;
use std::alloc::Global;
use stock_keeper::fault::KeepFault;
use stock_keeper::keeper::Keeper;
use stock_nums::memory::NoMemory;
use turn_lock::pass::Pass;

/// Ends a turn after its stop, which left the pass: the build takes in what was copied out, or counts anew from what was published, which
/// are the rows that were made ahead; and the rows that reports were made from before are freed, where no report holds them.
pub(crate) fn after_stop<K: Keeper>(
    alloc: Global,
    pass: Pass<Book<K>>,
    build: &mut Build,
    stopped: Stopped,
    ahead: Ahead,
) -> Worked<K>
    ghost history: { List Deed }
    requires seen { without_makers pass.view.seen ≡ history }
    requires stopped { (old : View Deed) × IsStoppedAt old build.old stopped pass.view }
    ensures same { result.pass ≡ pass }
    ensures work { IsWorkOf history build.new }
    ensures turn { (old : View Deed) → IsStoppedAt old build.old stopped pass.view
        → IfOk result.result (λ turned. IsTurnAtStop old build.old turned pass.view build.new) }
    ensures none_valued { IfOk result.result (λ turned. valuations turned ≡ 0) }
    ensures refused { (old : View Deed) → IsStoppedAt old build.old stopped pass.view
        → IfErr result.result (λ fault. IsRefusedTurn fault old pass.view) }
    ensures build_stays { OnErr result.result (IsUnchanged build.old build.new) }
{
    match stopped {
        Stopped::Fetched(accepted, fetched) => match take_in(alloc, build, &fetched) {
            Ok(()) => Worked {
                pass,
                result: Ok(Turned::Fetched(accepted)),
            },
            Err(_) => Worked {
                pass,
                result: Err(KeepFault::NoMemory),
            },
        },
        Stopped::Published(published, _) => {
            build.published(ahead.into_rows());
            Worked {
                pass,
                result: Ok(Turned::Published(published)),
            }
        }
        Stopped::Idle => Worked {
            pass,
            result: Ok(Turned::Idle),
        },
    }
}

// The build takes in what was fetched of a book with this history.
fn take_in(alloc: Global, build: &mut Build, fetched: &Fetched) -> Result<(), NoMemory>
    ghost history: { List Deed }
    requires work { IsWorkOf history build.old }
    requires waiting { CanFetch history build.old }
    requires legal { IsLegal history }
    requires fetched { IsFetchedOf (records_of history build.old) (drop (target_of build.old) (records history)) fetched.now }
    ensures work { IsWorkOf history build.new }
    ensures fetched { OnOk result (IsFetched history build.old build.new) }
    ensures unchanged { OnErr result (IsUnchanged build.old build.new) }
{
    build.extend(alloc, fetched)?;
    Ok(())
}
