//! A build takes in what a book has, values it turn by turn, and publishes what changed.
ghost use Rattle.std.specs.Prelude.{◌≡◌, IfSome, List};
ghost use Rattle.stock_model.specs.declared.deeds.Deed.{Deed};
ghost use Rattle.repost_worker.specs.Turns.{IsWorkOf, IsCleanOf};

use crate::spent::{Spent, nanoseconds};
use generation_book::book::Book;
use repost_build::build::Build;
use repost_worker::turn::{Turned, turn_on};
use std::alloc::Global;
use std::sync::ledger::Ledger;
use std::time::CpuClock;
use stock_keeper::nowhere::Nowhere;
use stock_nums::entry::Row;
use stock_nums::steps::Steps;

/// What a revaluation found, and what it took.
#[derive(Clone, Copy)]
pub(crate) struct Revalued {
    /// How many movements were valued.
    pub(crate) count: usize,
    /// A number that their values make in posting order.
    pub(crate) all: u64,
    /// How many turns valued one.
    pub(crate) turns: u64,
    pub(crate) spent: Spent,
}

/// The build takes in the records that it has not, values what is suspect, and publishes what changed. None where it has all, or
/// memory is wanting.
pub(crate) fn revalue<L: Ledger>(
    clock: &impl CpuClock,
    alloc: Global,
    book: &mut Book<Nowhere>,
    build: &mut Build,
    steps: &mut Steps<L>,
) -> Option<Revalued>
    ghost history: { List Deed }
    requires history { book.old.history ≡ history }
    requires work { IsWorkOf book.old.history build.old }
    ensures work { IsWorkOf book.new.history build.new }
{
    let begin = nanoseconds(clock);
    let Ok(Turned::Fetched(_)) = turn_on(alloc, book, build, steps) else {
        return None;
    };
    let fetched = nanoseconds(clock);
    let turns = turn_all(build, steps)?;
    let turned = nanoseconds(clock);
    let rows = build.changed(alloc).ok()?;
    let told = nanoseconds(clock);
    let (count, all) = (rows.len(), all_in_one(rows.as_slice()));
    // The turn that publishes takes rows of its own, and both at once would count twice in the peak of memory.
    drop(rows);
    turn_on(alloc, book, build, steps).ok()?;
    Some(Revalued {
        count,
        all,
        turns,
        spent: Spent {
            fetch: fetched.saturating_sub(begin),
            turns: turned.saturating_sub(fetched),
            changed: told.saturating_sub(turned),
        },
    })
}

// Values the first suspect until there is none, and tells how many there were.
fn turn_all<L: Ledger>(build: &mut Build, steps: &mut Steps<L>) -> Option<u64>
    ghost history: { List Deed }
    requires { IsWorkOf history build.old }
    ensures work { IsWorkOf history build.new }
    ensures clean { IfSome result (λ _. IsCleanOf history build.new) }
{
    for turns in 0..u64::MAX {
        if build.turn(steps).is_none() {
            return Some(turns);
        }
    }
    None
}

// A number that the values of rows make in their order.
fn all_in_one(rows: &[Row]) -> u64 {
    let mut all: u64 = 0;
    for row in rows {
        all = all
            .wrapping_mul(31)
            .wrapping_add(row.worth.value.0.unsigned_abs());
    }
    all
}
