//! Takes from layers: `layers layers 1000` lets 1000 lots enter and all their units leave again, a few at a time, and the number of
//! takes and what they cost together are printed. With `plain` the lots stand in a plain queue, and with `both` the line of each is
//! printed.

use crate::outcome::Outcome;
use crate::{layered, plain_layers};
use std::io;
use std::io::Print;

// Whether the lots stand in layers, whether in a plain queue, and how many there are.
#[derive(Clone, Copy)]
struct Task {
    layered: bool,
    plain: bool,
    count: u32,
}

fn read(words: &[String]) -> Option<Task> {
    let [kind, count] = words else {
        return None;
    };
    let (layered, plain) = match kind.as_str() {
        "layers" => (true, false),
        "plain" => (false, true),
        "both" => (true, true),
        _ => return None,
    };
    let count = count.as_str().parse::<u32>().ok()?;
    Some(Task {
        layered,
        plain,
        count,
    })
}

fn measure(rt: &(impl Print + AllocGlobal), task: Task) -> io::Result<Outcome> {
    if task.layered {
        let Ok((takes, cost)) = layered::take_all(rt.alloc(), task.count) else {
            return Ok(Outcome::NoMemory);
        };
        println!(rt; "{takes} {cost}")?;
    }
    if task.plain {
        let Ok((takes, cost)) = plain_layers::take_all(rt.alloc(), task.count) else {
            return Ok(Outcome::NoMemory);
        };
        println!(rt; "{takes} {cost}")?;
    }
    Ok(Outcome::Done)
}

/// Does what the words ask for.
pub(crate) fn run(rt: &(impl Print + AllocGlobal), words: &[String]) -> io::Result<Outcome> {
    match read(words) {
        Some(task) => measure(rt, task),
        None => Ok(Outcome::OtherWords),
    }
}

/// Takes 1000 lots both ways.
pub(crate) fn try_out(rt: &(impl Print + AllocGlobal)) -> io::Result<Outcome> {
    let task = Task {
        layered: true,
        plain: true,
        count: 1000,
    };
    measure(rt, task)
}
