//! Turns at one value: `lock lock 2 1000` lets two threads take 1000 turns each, and the number of its events is printed. With
//! `mutex` the value is under a plain mutex, and with 4 there are four threads.

use crate::outcome::Outcome;
use crate::{plain_lock, turns};
use std::io;
use std::io::Print;
use std::sync::Wait;
use std::thread::Threads;

// Whether the turns go through the lock, whether there are four threads, and how many turns each takes.
#[derive(Clone, Copy)]
struct Task {
    by_lock: bool,
    four: bool,
    turns: u32,
}

fn read(words: &[String]) -> Option<Task> {
    let [kind, threads, turns] = words else {
        return None;
    };
    Some(Task {
        by_lock: kind.as_str() == "lock",
        four: threads.as_str() == "4",
        turns: turns.as_str().parse::<u32>().ok()?,
    })
}

fn measure<R: Print + AllocGlobal + Wait + Threads + Sync>(
    rt: &R,
    task: Task,
) -> io::Result<Outcome> {
    let count = if task.by_lock {
        turns::count(rt, rt.alloc(), task.four, task.turns)
    } else {
        plain_lock::count(rt, rt.alloc(), task.four, task.turns)
    };
    let Some(count) = count else {
        return Ok(Outcome::NoMemory);
    };
    println!(rt; "{count}")?;
    Ok(Outcome::Done)
}

/// Does what the words ask for.
pub(crate) fn run<R: Print + AllocGlobal + Wait + Threads + Sync>(
    rt: &R,
    words: &[String],
) -> io::Result<Outcome> {
    match read(words) {
        Some(task) => measure(rt, task),
        None => Ok(Outcome::OtherWords),
    }
}

/// Lets two threads take 1000 turns each through the lock.
pub(crate) fn try_out<R: Print + AllocGlobal + Wait + Threads + Sync>(
    rt: &R,
) -> io::Result<Outcome> {
    let task = Task {
        by_lock: true,
        four: false,
        turns: 1000,
    };
    measure(rt, task)
}
