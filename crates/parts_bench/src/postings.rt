//! Postings among many movements: `postings check 100000 10000` holds 100,000 movements of one item in one warehouse, put in at places in no
//! order, and 10,000 more are tried in the middle half of the days. With `look` these are only looked for at their places. `postings 20000`
//! posts so many vouchers of 50 items and warehouses and prints each answer, `held 100000` holds so many movements of them, and
//! `room 200` makes room for so many. `all 60` does each of these with so many. A shortage is printed as its date, second, voucher,
//! line, side, item and warehouse, and how many units are lacking.

use crate::any_vouchers::post_all;
use crate::holding::{Measured, held_of_all, looked, tried, with_room};
use crate::outcome::Outcome;
use std::io;
use std::io::{BufWriter, Print, Write};
use stock_nums::memory::NoMemory;

// What is measured, how many there are of it, and how many are tried.
#[derive(Clone, Copy)]
struct Task<'a> {
    kind: &'a str,
    count: u32,
    tries: u32,
}

fn read(words: &[String]) -> Option<Task<'_>> {
    match words {
        [kind, count] => Some(Task {
            kind: kind.as_str(),
            count: count.as_str().parse::<u32>().ok()?,
            tries: 0,
        }),
        [kind, count, tries] => Some(Task {
            kind: kind.as_str(),
            count: count.as_str().parse::<u32>().ok()?,
            tries: tries.as_str().parse::<u32>().ok()?,
        }),
        _ => None,
    }
}

fn print_measured(rt: &impl Print, measured: Result<Measured, NoMemory>) -> io::Result<bool> {
    let Ok(measured) = measured else {
        return Ok(false);
    };
    println!(rt; "{} {}", measured.held, measured.tried)?;
    Ok(true)
}

fn print_count(rt: &impl Print, count: Result<usize, NoMemory>) -> io::Result<bool> {
    let Ok(count) = count else {
        return Ok(false);
    };
    println!(rt; "{count}")?;
    Ok(true)
}

fn print_answers(rt: &(impl Print + AllocGlobal), count: u32) -> io::Result<bool> {
    let Ok(answers) = post_all(rt.alloc(), count) else {
        return Ok(false);
    };
    let mut out = BufWriter::new(rt.alloc(), io::writer(rt))?;
    for answer in answers.as_slice() {
        writeln!(out, "{answer}")?;
    }
    out.flush()?;
    Ok(true)
}

// Does each of them with so many.
fn measure_all(rt: &(impl Print + AllocGlobal), count: u32) -> io::Result<bool> {
    let alloc = rt.alloc();
    Ok(
        print_measured(rt, tried(alloc, count, count))?
            && print_measured(rt, looked(alloc, count, count))?
            && print_answers(rt, count)?
            && print_count(rt, held_of_all(alloc, count))?
            && print_count(rt, with_room(alloc, count))?,
    )
}

fn measure(rt: &(impl Print + AllocGlobal), task: &Task<'_>) -> io::Result<Outcome> {
    let alloc = rt.alloc();
    let enough = match task.kind {
        "check" => print_measured(rt, tried(alloc, task.count, task.tries))?,
        "look" => print_measured(rt, looked(alloc, task.count, task.tries))?,
        "postings" => print_answers(rt, task.count)?,
        "held" => print_count(rt, held_of_all(alloc, task.count))?,
        "room" => print_count(rt, with_room(alloc, task.count))?,
        "all" => measure_all(rt, task.count)?,
        _ => return Ok(Outcome::OtherWords),
    };
    Ok(Outcome::if_enough(enough))
}

/// Does what the words ask for.
pub(crate) fn run(rt: &(impl Print + AllocGlobal), words: &[String]) -> io::Result<Outcome> {
    match read(words) {
        Some(task) => measure(rt, &task),
        None => Ok(Outcome::OtherWords),
    }
}

/// Does each of them with 60.
pub(crate) fn try_out(rt: &(impl Print + AllocGlobal)) -> io::Result<Outcome> {
    Ok(Outcome::if_enough(measure_all(rt, 60)?))
}
