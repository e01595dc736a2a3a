//! Loads over memory: what is printed, and which words are none.

use crate::running::{Failing, NEVER, run, shelf};
use std::alloc::Global;
use std::sync::Wait;
use std::test::Fail;
use std::thread::Threads;
use stock_nums::memory::NoMemory;

const USAGE: &str =
    "stockd: words: batch [--file P] | serve --file P --port N --desks D | load N | import --file P | audit --file P\n";

const OF_FOUR: &str = "{\"covered\":9,\"records\":9,\"stock\":15,\"worth\":145}\n";

/// Whether the run with these words ends so, and writes this. Its input has a line that no load takes.
fn ends(
    rt: &(impl Threads + Wait + Sync),
    alloc: Global,
    words: &[&str],
    failing: Failing,
    status: u8,
    output: &str,
    notes: &str,
) -> Result<bool, NoMemory> {
    let mut shelf = shelf(alloc, None)?;
    let input = Vec::from_slice(alloc, b"{\"do\":\"settle\"}\n")?;
    let ended = run(rt, alloc, words, &mut shelf, input, 50_000, failing)?;
    Ok(
        ended.status == status
            && ended.output.bytes() == output.as_bytes()
            && ended.notes.bytes() == notes.as_bytes(),
    )
}

#[test]
fn a_load_prints_its_sums(rt: HostRuntime) -> Result<(), Fail> {
    let alloc = rt.alloc();
    for (count, output) in [
        ("4", OF_FOUR),
        ("0000000004", OF_FOUR),
        (
            "8",
            "{\"covered\":13,\"records\":13,\"stock\":30,\"worth\":295}\n",
        ),
    ] {
        assert!(rt;
            ends(&rt, alloc, &["load", count], NEVER, 0, output, "")?,
            "{count}"
        );
    }
    Ok(())
}

#[test]
fn other_words_are_no_load(rt: HostRuntime) -> Result<(), Fail> {
    let alloc = rt.alloc();
    for count in [
        "0",
        "40001",
        "x",
        "",
        "+4",
        "00000000004",
        "4294967300",
        "--",
    ] {
        assert!(rt;
            ends(&rt, alloc, &["load", count], NEVER, 2, "", USAGE)?,
            "{count}"
        );
    }
    assert!(rt; ends(&rt, alloc, &["load"], NEVER, 2, "", USAGE)?);
    assert!(rt; ends(&rt, alloc, &["load", "4", "4"], NEVER, 2, "", USAGE)?);
    Ok(())
}

#[test]
fn an_output_that_fails_is_told(rt: HostRuntime) -> Result<(), Fail> {
    let alloc = rt.alloc();
    let write = Failing {
        write: Some(1),
        ..NEVER
    };
    assert!(rt;
        ends(
            &rt,
            alloc,
            &["load", "4"],
            write,
            5,
            "",
            "stockd: write failed\n"
        )?
    );
    Ok(())
}
