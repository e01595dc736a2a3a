//! What is asked for is run and printed.
ghost use Rattle.std.specs.Prelude.{◌≡◌, ◌<◌};
ghost use Rattle.stock_model.specs.History as history;
ghost use Rattle.repost_worker.specs.Turns.{IsWorkOf};

use crate::late_posting::{post_all, post_late};
use crate::late_vouchers::{ITEM, OTHER};
use crate::revaluing::{Revalued, revalue};
use generation_book::book::Book;
use repost_build::build::Build;
use std::alloc::Global;
use std::io;
use std::io::Print;
use std::sync::ledger::{Blank, Ledger};
use std::time::CpuClock;
use stock_keeper::nowhere::Nowhere;
use stock_nums::cause::Method;
use stock_nums::steps::Steps;

/// What comes after the movements are posted.
#[derive(Clone, Copy, Debug, PartialEq, Eq)]
pub(crate) enum Then {
    /// Nothing: they are not even valued.
    Held,
    /// They are valued and published.
    Nothing,
    /// And then a receipt of their item comes, before all of them.
    Late,
    /// And then a receipt of another item comes.
    Other,
}

/// What is asked for.
#[derive(Clone, Copy)]
pub(crate) struct Task {
    pub(crate) method: Method,
    /// How many movements there are.
    pub(crate) count: u32,
    pub(crate) then: Then,
    /// Times are printed.
    pub(crate) timed: bool,
}

// Revalues, and prints what was found. Whether memory was enough.
fn report<L: Ledger>(
    rt: &(impl Print + CpuClock + AllocGlobal),
    book: &mut Book<Nowhere>,
    build: &mut Build,
    steps: &mut Steps<L>,
    timed: bool,
) -> io::Result<bool>
    requires work { IsWorkOf book.old.history build.old }
    ensures work { IsWorkOf book.new.history build.new }
{
    let Some(found) = revalue(rt, rt.alloc(), book, build, steps) else {
        return Ok(false);
    };
    print(rt, &found, timed)?;
    Ok(true)
}

fn print(rt: &impl Print, found: &Revalued, timed: bool) -> io::Result<()> {
    println!(rt; "{} {} {}", found.count, found.all, found.turns)?;
    if timed {
        let spent = found.spent;
        println!(rt; "{} {} {}", spent.fetch, spent.turns, spent.changed)?;
    }
    Ok(())
}

// The item of which a receipt comes late, if one does.
fn late_item(then: Then) -> Option<&'static str> {
    match then {
        Then::Held | Then::Nothing => None,
        Then::Late => Some(ITEM),
        Then::Other => Some(OTHER),
    }
}

// The movements are valued and published, and then what comes late. Whether memory was enough.
fn run_build<L: Ledger>(
    rt: &(impl Print + CpuClock + AllocGlobal),
    book: &mut Book<Nowhere>,
    steps: &mut Steps<L>,
    task: &Task,
) -> io::Result<bool>
    requires none { history.covered book.old.history ≡ 0 }
{
    let mut build = Build::new(rt.alloc());
    if !report(rt, book, &mut build, steps, task.timed)? {
        return Ok(false);
    }
    let Some(item) = late_item(task.then) else {
        return Ok(true);
    };
    if post_late(rt.alloc(), book, &build, item).is_err() {
        return Ok(false);
    }
    report(rt, book, &mut build, steps, task.timed)
}

/// Does what is asked for, and tells whether memory was enough.
pub(crate) fn revalue_late<L: Ledger>(
    rt: &(impl Print + CpuClock + AllocGlobal),
    blank: Blank,
    task: &Task,
) -> io::Result<bool>
    requires name { blank.name ≡ L.name }
    requires parts { blank.parts ≡ L.parts }
    requires some { 0 < L.parts }
{
    let mut book = Book::start(rt.alloc());
    if post_all(rt.alloc(), &mut book, task.method, task.count).is_err() {
        return Ok(false);
    }
    if task.then == Then::Held {
        return Ok(true);
    }
    let mut steps = Steps::<L>::new(blank);
    run_build(rt, &mut book, &mut steps, task)
}
