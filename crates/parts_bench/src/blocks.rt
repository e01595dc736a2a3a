//! Insertions into a list in blocks: `blocks 50000 100000` lets it take 50,000 items in order, and then 100,000 at places in no order.
//! How many it has, and a number that all of them make in their order, are printed.

use crate::items::{all_in_one, filled};
use crate::outcome::Outcome;
use std::io;
use std::io::Print;

// How many items come in order, and how many in no order.
fn read(words: &[String]) -> Option<(u32, u32)> {
    let [ordered, scattered] = words else {
        return None;
    };
    Some((
        ordered.as_str().parse::<u32>().ok()?,
        scattered.as_str().parse::<u32>().ok()?,
    ))
}

fn measure(rt: &(impl Print + AllocGlobal), ordered: u32, scattered: u32) -> io::Result<Outcome> {
    let Ok(list) = filled(rt.alloc(), ordered, scattered) else {
        return Ok(Outcome::NoMemory);
    };
    let all = all_in_one(&list);
    println!(rt; "{} {all}", list.len())?;
    Ok(Outcome::Done)
}

/// Does what the words ask for.
pub(crate) fn run(rt: &(impl Print + AllocGlobal), words: &[String]) -> io::Result<Outcome> {
    match read(words) {
        Some((ordered, scattered)) => measure(rt, ordered, scattered),
        None => Ok(Outcome::OtherWords),
    }
}

/// Inserts 50 items in order, and 1000 in no order.
pub(crate) fn try_out(rt: &(impl Print + AllocGlobal)) -> io::Result<Outcome> {
    measure(rt, 50, 1000)
}
