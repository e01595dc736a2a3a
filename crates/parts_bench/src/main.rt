//! Measures a part of the program alone: `parts_bench PART WORD..`. Each part says what its words are. `parts_bench all` runs each
//! of them with little to do. `rounds` goes over standard input.
#![tactic(auto)]

mod any_vouchers;
mod blocks;
mod framing;
mod holding;
mod items;
mod late;
mod late_posting;
mod late_vouchers;
mod layered;
mod layers;
mod lock;
mod lots;
mod movements;
mod notes;
mod numbers;
mod outcome;
mod plain_layers;
mod plain_lock;
mod posting;
mod postings;
mod reading;
mod revaluation;
mod revaluing;
mod rounds;
mod spent;
mod turns;

use crate::outcome::Outcome;
use std::env::Env;
use std::io::{Print, Read};
use std::process::ExitCode;
use std::sync::Wait;
use std::thread::Threads;
use std::time::CpuClock;
use std::{env, io};

fn words_of(rt: &(impl Env + AllocGlobal)) -> io::Result<Vec<String>> {
    let mut words = Vec::new(rt.alloc());
    for word in env::args(rt)?.skip(1) {
        words.push(word)?;
    }
    Ok(words)
}

// Measures the part with the words that follow its name.
fn run_part<R: Print + CpuClock + AllocGlobal + Wait + Threads + Sync>(
    rt: &R,
    part: &str,
    words: &[String],
    input: &str,
) -> io::Result<Outcome> {
    match part {
        "all" => run_all(rt, input),
        "layers" => layers::run(rt, words),
        "blocks" => blocks::run(rt, words),
        "postings" => postings::run(rt, words),
        "late" => late::run(rt, words),
        "rounds" => rounds::run(rt, words, input),
        "lock" => lock::run(rt, words),
        _ => Ok(Outcome::OtherWords),
    }
}

// Runs each part with little to do, until one does not come to its end.
fn run_all<R: Print + CpuClock + AllocGlobal + Wait + Threads + Sync>(
    rt: &R,
    input: &str,
) -> io::Result<Outcome> {
    let outcomes = [
        layers::try_out(rt)?,
        blocks::try_out(rt)?,
        postings::try_out(rt)?,
        late::try_out(rt)?,
        rounds::try_out(rt, input)?,
        lock::try_out(rt)?,
    ];
    for outcome in outcomes {
        if outcome != Outcome::Done {
            return Ok(outcome);
        }
    }
    Ok(Outcome::Done)
}

// Whether the part goes over the input.
fn takes_input(part: &str) -> bool {
    matches!(part, "all" | "rounds")
}

fn main(rt: HostRuntime) -> io::Result<ExitCode> {
    let words = words_of(&rt)?;
    let [part, rest @ ..] = words.as_slice() else {
        return Ok(Outcome::OtherWords.status());
    };
    let mut input = String::new(rt.alloc());
    if takes_input(part.as_str()) {
        rt.stdin().read_to_string(&mut input)?;
    }
    let outcome = run_part(&rt, part.as_str(), rest, input.as_str())?;
    Ok(outcome.status())
}
