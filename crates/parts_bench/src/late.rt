//! A late receipt among many movements: `late fifo 50000` lets a book take 50,000 movements of one item in one warehouse, costed first
//! in, first out, in vouchers of 100 lines, and a build value and publish them. How many it valued, a number that their values make
//! in order, and how many turns it made are printed. With `average` the item is costed at the moving average. With `late` a receipt
//! of the item then comes before all of them, with `other` one of another item, and the same is printed of what the build then
//! values. With `timed` after that the nanoseconds are printed too that the fetch, the turns, and the telling of what changed took.
//! With `held` there is no build, and nothing is printed.

use crate::outcome::Outcome;
use crate::revaluation::{Task, Then, revalue_late};
use std::io;
use std::io::Print;
use std::marker::Brand;
use std::sync::ledger::Blank;
use std::time::CpuClock;
use stock_nums::cause::Method;

fn method_of(word: &str) -> Option<Method> {
    match word {
        "fifo" => Some(Method::Fifo),
        "average" => Some(Method::Average),
        _ => None,
    }
}

fn then_of(word: &str) -> Option<Then> {
    match word {
        "late" => Some(Then::Late),
        "other" => Some(Then::Other),
        "held" => Some(Then::Held),
        _ => None,
    }
}

// What the first words ask for. After them it says what comes then, and whether times are printed.
fn read(words: &[String]) -> Option<Task> {
    let [method, count, rest @ ..] = words else {
        return None;
    };
    let (then, timed) = match rest {
        [] => (Then::Nothing, false),
        [then] => (then_of(then.as_str())?, false),
        [then, timed] => (then_of(then.as_str())?, timed.as_str() == "timed"),
        _ => return None,
    };
    Some(Task {
        method: method_of(method.as_str())?,
        count: count.as_str().parse::<u32>().ok()?,
        then,
        timed,
    })
}

// With steps of a ledger of their own.
fn measure(rt: &(impl Print + CpuClock + AllocGlobal), task: &Task) -> io::Result<Outcome> {
    let enough = revalue_late::<Brand>(rt, Blank::new(1), task)?;
    Ok(Outcome::if_enough(enough))
}

/// Does what the words ask for.
pub(crate) fn run(
    rt: &(impl Print + CpuClock + AllocGlobal),
    words: &[String],
) -> io::Result<Outcome> {
    match read(words) {
        Some(task) => measure(rt, &task),
        None => Ok(Outcome::OtherWords),
    }
}

/// Values 250 movements, and then a late receipt.
pub(crate) fn try_out(rt: &(impl Print + CpuClock + AllocGlobal)) -> io::Result<Outcome> {
    let task = Task {
        method: Method::Fifo,
        count: 250,
        then: Then::Late,
        timed: false,
    };
    measure(rt, &task)
}
