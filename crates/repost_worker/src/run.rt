//! Runs of turns.
ghost use Rattle.std.specs.Prelude.{◌≡◌, ◌-◌, ◌<◌, ◌↔◌, IsTrue, IfSome, IfErr};
ghost use Rattle.std.specs.Option.{option_map};
ghost use Rattle.std.specs.Result.{result_err};
ghost use Rattle.stock_model.specs.History as history;
ghost use Rattle.repost_worker.specs.Published.{Publishes};
ghost use Rattle.repost_worker.specs.Runs.{IsRun};
ghost use Rattle.repost_worker.specs.Turns.{IsWorkOf, CanPublish};

use crate::turn::turn_on;
use generation_book::book::Book;
use repost_build::build::Build;
use std::alloc::Global;
use std::sync::ledger::Ledger;
use stock_keeper::fault::KeepFault;
use stock_keeper::keeper::Keeper;
use stock_nums::numbers::RecordNo;
use stock_nums::steps::Steps;

/// How a run of turns ended.
#[derive(Clone, Copy, Debug, PartialEq, Eq)]
pub struct Ran {
    /// How many records the reports cover now.
    pub covered: RecordNo,
    /// Why a turn was refused. None exactly where none was.
    pub stopped: Option<KeepFault>,
}

/// Makes one turn after another until one is idle, one is refused, or so many were made as the limit says. The turns before a
/// refused one stand.
pub fn run_turns<K: Keeper, L: Ledger>(
    alloc: Global,
    book: &mut Book<K>,
    build: &mut Build,
    limit: Option<u32>,
    steps: &mut Steps<L>,
) -> Ran
    requires work { IsWorkOf book.old.history build.old }
    requires some { IfSome limit (λ n. 0 < n) }
    ensures work { IsWorkOf book.new.history build.new }
    ensures run { IsRun limit result.stopped book.old.history build.old steps.old book.new.history build.new steps.new }
    ensures publishes { Publishes result.stopped book.old.history book.old.keeper book.new.history book.new.keeper }
    ensures due { IfSome result.stopped (λ fault. fault ≡ KeepFault.Failed → CanPublish book.new.history build.new) }
    ensures covered { result.covered.0 ≡ history.covered book.new.history }
{
    let made = make_turns(alloc, book, build, limit, steps);
    Ran {
        covered: book.covered(),
        stopped: made.err(),
    }
}

// Makes the turns. The error is what the one after them was refused for.
fn make_turns<K: Keeper, L: Ledger>(
    alloc: Global,
    book: &mut Book<K>,
    build: &mut Build,
    limit: Option<u32>,
    steps: &mut Steps<L>,
) -> Result<(), KeepFault>
    requires { IsWorkOf book.old.history build.old }
    ensures work { IsWorkOf book.new.history build.new }
    ensures run { IsRun limit (result_err result) book.old.history build.old steps.old book.new.history build.new steps.new }
    ensures publishes { Publishes (result_err result) book.old.history book.old.keeper book.new.history book.new.keeper }
    ensures due { IfErr result (λ fault. fault ≡ KeepFault.Failed → CanPublish book.new.history build.new) }
{
    let mut left = limit;
    while is_one_left(left) {
        if turn_on(alloc, book, build, steps)?.is_idle() {
            return Ok(());
        }
        left = one_less(left);
    }
    Ok(())
}

// Whether one more turn may be made.
fn is_one_left(left: Option<u32>) -> bool
    ensures { IsTrue result ↔ IfSome left (λ n. 0 < n) }
{
    match left {
        Some(n) => 0 < n,
        None => true,
    }
}

// How many are left after it.
fn one_less(left: Option<u32>) -> Option<u32>
    requires { IfSome left (λ n. 0 < n) }
    ensures { result ≡ option_map (λ n. n - 1) left }
{
    match left {
        Some(n) => Some(n - 1),
        None => None,
    }
}
