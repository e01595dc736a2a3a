//! Framing and reading alone: `rounds framing 20 < requests` frames the requests of the input so many times, and prints how many were
//! framed in all. With `reading` each line of the input is read as a request, and those that are one are counted; with `both` the
//! line of each is printed.

use crate::framing::count_framed;
use crate::outcome::Outcome;
use crate::reading::count_read;
use std::io;
use std::io::Print;

// Whether requests are framed, whether lines are read, and how many times.
#[derive(Clone, Copy)]
struct Task {
    framing: bool,
    reading: bool,
    rounds: u32,
}

fn read(words: &[String]) -> Option<Task> {
    let [kind, rounds] = words else {
        return None;
    };
    let (framing, reading) = match kind.as_str() {
        "framing" => (true, false),
        "reading" => (false, true),
        "both" => (true, true),
        _ => return None,
    };
    let rounds = rounds.as_str().parse::<u32>().ok()?;
    Some(Task {
        framing,
        reading,
        rounds,
    })
}

fn measure(rt: &(impl Print + AllocGlobal), task: Task, input: &str) -> io::Result<Outcome> {
    let (mut framed, mut requests): (u64, u64) = (0, 0);
    for _ in 0..task.rounds {
        if task.framing {
            framed = framed.saturating_add(count_framed(input.as_bytes()) as u64);
        }
        if task.reading {
            requests = requests.saturating_add(count_read(rt.alloc(), input));
        }
    }
    if task.framing {
        println!(rt; "{framed}")?;
    }
    if task.reading {
        println!(rt; "{requests}")?;
    }
    Ok(Outcome::Done)
}

/// Does what the words ask for.
pub(crate) fn run(
    rt: &(impl Print + AllocGlobal),
    words: &[String],
    input: &str,
) -> io::Result<Outcome> {
    match read(words) {
        Some(task) => measure(rt, task, input),
        None => Ok(Outcome::OtherWords),
    }
}

/// Frames and reads the input twice.
pub(crate) fn try_out(rt: &(impl Print + AllocGlobal), input: &str) -> io::Result<Outcome> {
    let task = Task {
        framing: true,
        reading: true,
        rounds: 2,
    };
    measure(rt, task, input)
}
