//! Batches over a keeper in memory that fails as planned, and that is opened again.

use crate::running::{NEVER, joined, run, shelf, shelf_of};
use std::alloc::Global;
use std::process::Abort;
use std::sync::Wait;
use std::test::Fail;
use std::thread::Threads;
use stock_keeper::memory_shelf::MemShelf;
use stock_nums::memory::NoMemory;

const HEADS: &str = r#"{"do":"item","code":"A","method":"fifo"}
{"do":"item","code":"B","method":"average"}
{"do":"store","code":"W1","account":100}
{"do":"store","code":"W2","account":101}
"#;

const FOUR: &str = r#"{"record":1,"status":"accepted"}
{"record":2,"status":"accepted"}
{"record":3,"status":"accepted"}
{"record":4,"status":"accepted"}
"#;

const TWO_SETTLES: &str = r#"{"do":"settle"}
{"do":"settle"}
"#;

const FAILED_THEN_SETTLED: &str = r#"{"fault":"store","status":"failed"}
{"covered":4,"status":"settled"}
"#;

const TWO_WORKS: &str = r#"{"do":"work","turns":5}
{"do":"work","turns":1}
"#;

const FAILED_THEN_WORKED: &str = r#"{"fault":"store","status":"failed"}
{"covered":4,"status":"worked"}
"#;

const TWO_RECEIPTS: &str = r#"{"do":"settle"}
{"do":"receipt","at":"2026-01-01T09:00:00","lines":[{"item":"A","store":"W1","qty":1,"amount":10}]}
{"do":"receipt","at":"2026-01-01T09:00:00","lines":[{"item":"A","store":"W1","qty":1,"amount":10}]}
"#;

const FAILED_THEN_ACCEPTED: &str = r#"{"covered":4,"status":"settled"}
{"fault":"store","status":"failed"}
{"record":5,"status":"accepted"}
"#;

const FAILED_THEN_THREE: &str = r#"{"record":1,"status":"accepted"}
{"record":2,"status":"accepted"}
{"fault":"store","status":"failed"}
{"record":3,"status":"accepted"}
"#;

// Turns in small portions with records between them: the fifth fetch has to wait until three of four receipts are published.
const PORTIONS: &str = r#"{"do":"work","turns":1}
{"do":"receipt","at":"2026-01-01T09:00:00","lines":[{"item":"A","store":"W1","qty":1,"amount":10}]}
{"do":"work","turns":1}
{"do":"receipt","at":"2026-01-02T09:00:00","lines":[{"item":"A","store":"W1","qty":1,"amount":10}]}
{"do":"work","turns":2}
{"do":"receipt","at":"2026-01-03T09:00:00","lines":[{"item":"A","store":"W1","qty":1,"amount":10}]}
{"do":"work","turns":2}
{"do":"receipt","at":"2026-01-04T09:00:00","lines":[{"item":"A","store":"W1","qty":1,"amount":10}]}
{"do":"settle"}
{"do":"report","of":"balance"}
{"do":"settle"}
"#;

const PUBLISHED_IN_TWO: &str = r#"{"covered":0,"status":"worked"}
{"record":5,"status":"accepted"}
{"covered":0,"status":"worked"}
{"record":6,"status":"accepted"}
{"covered":0,"status":"worked"}
{"record":7,"status":"accepted"}
{"covered":0,"status":"worked"}
{"record":8,"status":"accepted"}
{"fault":"store","status":"failed"}
{"covered":7,"report":"balance","rows":[{"item":"A","qty":3,"store":"W1","value":30}],"status":"ok"}
{"covered":8,"status":"settled"}
"#;

const BALANCE: &str = r#"{"do":"report","of":"balance"}
{"do":"settle"}
{"do":"report","of":"balance","need":5}
"#;

const BALANCES: &str = r#"{"covered":4,"report":"balance","rows":[],"status":"ok"}
{"covered":5,"status":"settled"}
{"covered":5,"report":"balance","rows":[{"item":"A","qty":1,"store":"W1","value":10}],"status":"ok"}
"#;

/// Whether the batch over the shelf ends so and writes these replies.
fn writes(
    rt: &(impl Threads + Wait + Sync),
    alloc: Global,
    shelf: &mut MemShelf,
    lines: &[&str],
    status: u8,
    replies: &[&str],
) -> Result<bool, NoMemory> {
    let words = ["batch", "--file", "ledger"];
    let wanted = joined(alloc, replies)?;
    let ended = run(
        rt,
        alloc,
        &words,
        shelf,
        joined(alloc, lines)?,
        50_000,
        NEVER,
    )?;
    Ok(ended.status == status && ended.output.bytes() == wanted.as_slice())
}

/// Runs a batch over a new keeper of whose calls one fails.
fn check(
    rt: &(impl Abort + Threads + Wait + Sync),
    alloc: Global,
    failing: u64,
    lines: &[&str],
    status: u8,
    replies: &[&str],
) -> Result<(), Fail> {
    let mut shelf = shelf(alloc, Some(failing))?;
    assert!(rt; writes(rt, alloc, &mut shelf, lines, status, replies)?);
    Ok(())
}

#[test]
fn a_keeper_that_fails_is_told_and_the_run_goes_on(rt: HostRuntime) -> Result<(), Fail> {
    let alloc = rt.alloc();
    let cases: [(u64, &[&str], u8, &[&str]); 6] = [
        (1, &[HEADS], 6, &[]),
        (4, &[HEADS], 0, &[FAILED_THEN_THREE]),
        (6, &[HEADS, TWO_SETTLES], 0, &[FOUR, FAILED_THEN_SETTLED]),
        (6, &[HEADS, TWO_WORKS], 0, &[FOUR, FAILED_THEN_WORKED]),
        (7, &[HEADS, TWO_RECEIPTS], 0, &[FOUR, FAILED_THEN_ACCEPTED]),
        (11, &[HEADS, PORTIONS], 0, &[FOUR, PUBLISHED_IN_TWO]),
    ];
    for (failing, lines, status, replies) in cases {
        check(&rt, alloc, failing, lines, status, replies)?;
    }
    Ok(())
}

#[test]
fn a_ledger_is_opened_again(rt: HostRuntime) -> Result<(), Fail> {
    let alloc = rt.alloc();
    let mut shelf = shelf(alloc, Some(7))?;
    let first = writes(
        &rt,
        alloc,
        &mut shelf,
        &[HEADS, TWO_RECEIPTS],
        0,
        &[FOUR, FAILED_THEN_ACCEPTED],
    )?;
    assert!(rt; first);
    assert!(rt; writes(&rt, alloc, &mut shelf, &[BALANCE], 0, &[BALANCES])?);
    Ok(())
}

// A keeper in memory hands tables out as they are.
#[test]
fn tables_of_another_version_are_refused(rt: HostRuntime) -> Result<(), Fail> {
    for version in [1, 3] {
        let mut shelf = shelf_of(rt.alloc(), version, None)?;
        let input = joined(rt.alloc(), &[HEADS])?;
        let words = ["batch", "--file", "ledger"];
        let ended = run(&rt, rt.alloc(), &words, &mut shelf, input, 50_000, NEVER)?;
        assert!(rt; ended.status == 7);
        assert!(rt; ended.output.bytes().is_empty());
        assert!(rt; ended.notes.bytes() == b"stockd: stored head\n".as_slice());
    }
    Ok(())
}
