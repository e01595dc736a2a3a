//! Batches over streams in memory: the texts of whole runs, streams that fail, and what is at a limit.
ghost use Rattle.std.specs.Prelude.{◌<◌};

use crate::running::{Failing, NEVER, run, shelf};
use std::alloc::Global;
use std::process::Abort;
use std::sync::Wait;
use std::test::Fail;
use std::thread::Threads;
use stock_nums::memory::NoMemory;

const FIRST: &str = r#"{"do":"item","code":"B","method":"average"}
{"do":"store","code":"W1","account":100}
{"do":"receipt","at":"2026-01-02T09:00:00","lines":[{"item":"B","store":"W1","qty":10,"amount":1000}]}
{"do":"report","of":"balance"}
{"do":"settle"}
{"do":"report","of":"balance"}
"#;

const FIRST_REPLIES: &str = r#"{"record":1,"status":"accepted"}
{"record":2,"status":"accepted"}
{"record":3,"status":"accepted"}
{"covered":0,"report":"balance","rows":[],"status":"ok"}
{"covered":3,"status":"settled"}
{"covered":3,"report":"balance","rows":[{"item":"B","qty":10,"store":"W1","value":1000}],"status":"ok"}
"#;

// Goods are sold, a sale is typed late, and a report asks for the last record.
const SALES: &str = r#"{"do":"item","code":"B","method":"average"}
{"do":"store","code":"W1","account":100}
{"do":"receipt","at":"2026-01-02T09:00:00","lines":[{"item":"B","store":"W1","qty":3,"amount":100}]}
{"do":"issue","at":"2026-01-05T09:00:00","use":"sold","lines":[{"item":"B","store":"W1","qty":2}]}
{"do":"issue","at":"2026-01-03T09:00:00","use":"used","lines":[{"item":"B","store":"W1","qty":2}]}
{"do":"report","of":"balance","need":4}
{"do":"report","of":"balance","need":5}
{"do":"settle"}
{"do":"report","of":"balance","need":4}
"#;

const SALES_REPLIES: &str = r#"{"record":1,"status":"accepted"}
{"record":2,"status":"accepted"}
{"record":3,"status":"accepted"}
{"record":4,"status":"accepted"}
{"at":"2026-01-05T09:00:00","fault":"short","item":"B","lacking":1,"line":1,"record":4,"status":"refused","store":"W1"}
{"covered":0,"need":4,"status":"pending"}
{"accepted":4,"need":5,"status":"no-such-record"}
{"covered":4,"status":"settled"}
{"covered":4,"report":"balance","rows":[{"item":"B","qty":1,"store":"W1","value":33}],"status":"ok"}
"#;

// Goods that are costed first in, first out, with a receipt that is typed late.
const FIRST_OUT: &str = r#"{"do":"item","code":"A","method":"fifo"}
{"do":"store","code":"W1","account":100}
{"do":"receipt","at":"2026-01-02T09:00:00","lines":[{"item":"A","store":"W1","qty":10,"amount":1000}]}
{"do":"receipt","at":"2026-01-03T09:00:00","lines":[{"item":"A","store":"W1","qty":10,"amount":1300}]}
{"do":"issue","at":"2026-01-04T09:00:00","use":"sold","lines":[{"item":"A","store":"W1","qty":15}]}
{"do":"settle"}
{"do":"report","of":"layers"}
{"do":"receipt","at":"2026-01-01T09:00:00","lines":[{"item":"A","store":"W1","qty":4,"amount":100}]}
{"do":"settle"}
{"do":"report","of":"layers"}
{"do":"report","of":"balance"}
"#;

const FIRST_OUT_REPLIES: &str = r#"{"record":1,"status":"accepted"}
{"record":2,"status":"accepted"}
{"record":3,"status":"accepted"}
{"record":4,"status":"accepted"}
{"record":5,"status":"accepted"}
{"covered":5,"status":"settled"}
{"covered":5,"report":"layers","rows":[{"item":"A","line":1,"qty":5,"record":4,"store":"W1","value":650}],"status":"ok"}
{"record":6,"status":"accepted"}
{"covered":6,"status":"settled"}
{"covered":6,"report":"layers","rows":[{"item":"A","line":1,"qty":9,"record":4,"store":"W1","value":1170}],"status":"ok"}
{"covered":6,"report":"balance","rows":[{"item":"A","qty":9,"store":"W1","value":1170}],"status":"ok"}
"#;

// Vouchers of every kind: two of three pieces that were sold come back, a charge comes late, and goods go to another
// warehouse and back to the supplier.
const KINDS: &str = r#"{"do":"item","code":"B","method":"average"}
{"do":"store","code":"W1","account":100}
{"do":"store","code":"W2","account":101}
{"do":"receipt","at":"2026-01-01T09:00:00","lines":[{"item":"B","store":"W1","qty":3,"amount":100}]}
{"do":"issue","at":"2026-01-02T09:00:00","use":"sold","lines":[{"item":"B","store":"W1","qty":3}]}
{"do":"customer-return","at":"2026-01-05T09:00:00","lines":[{"record":5,"line":1,"store":"W1","qty":1}]}
{"do":"customer-return","at":"2026-01-03T09:00:00","lines":[{"record":5,"line":1,"store":"W1","qty":1}]}
{"do":"transfer","at":"2026-01-06T09:00:00","lines":[{"item":"B","from":"W1","to":"W2","qty":1}]}
{"do":"landed","charge":50,"basis":"qty","targets":[{"record":4,"line":1}]}
{"do":"supplier-return","at":"2026-01-07T09:00:00","lines":[{"record":4,"line":1,"store":"W2","qty":1}]}
{"do":"customer-return","at":"2026-01-08T09:00:00","lines":[{"record":5,"line":1,"store":"W1","qty":2}]}
{"do":"settle"}
{"do":"report","of":"balance"}
"#;

const KINDS_REPLIES: &str = r#"{"record":1,"status":"accepted"}
{"record":2,"status":"accepted"}
{"record":3,"status":"accepted"}
{"record":4,"status":"accepted"}
{"record":5,"status":"accepted"}
{"record":6,"status":"accepted"}
{"record":7,"status":"accepted"}
{"record":8,"status":"accepted"}
{"record":9,"status":"accepted"}
{"record":10,"status":"accepted"}
{"asked":2,"fault":"over-return","left":1,"line":1,"status":"refused"}
{"covered":10,"status":"settled"}
{"covered":10,"report":"balance","rows":[{"item":"B","qty":1,"store":"W1","value":50},{"item":"B","qty":0,"store":"W2","value":0}],"status":"ok"}
"#;

const SHEETS: &str = r#"{"do":"item","code":"B","method":"fifo"}
{"do":"store","code":"W1","account":100}
{"do":"receipt","at":"2026-01-02T09:00:00","lines":[{"item":"B","store":"W1","qty":10,"amount":1000}]}
{"do":"settle"}
{"do":"report","of":"ledger"}
{"do":"report","of":"ledger","as":"csv"}
{"do":"report","of":"accounts"}
{"do":"report","of":"accounts","as":"csv"}
{"do":"report","of":"voucher","record":3}
{"do":"report","of":"voucher","record":3,"as":"csv"}
{"do":"report","of":"layers","as":"csv"}
{"do":"report","of":"balance","as":"csv"}
"#;

const SHEETS_REPLIES: &str = r#"{"record":1,"status":"accepted"}
{"record":2,"status":"accepted"}
{"record":3,"status":"accepted"}
{"covered":3,"status":"settled"}
{"covered":3,"report":"ledger","rows":[{"at":"2026-01-02T09:00:00","item":"B","line":1,"qty":10,"record":3,"side":"in","stock":10,"store":"W1","value":1000,"worth":1000}],"status":"ok"}
{"covered":3,"csv":"item,store,at,record,line,side,qty,value,stock,worth\nB,W1,2026-01-02T09:00:00,3,1,in,10,1000,10,1000\n","report":"ledger","status":"ok"}
{"covered":3,"report":"accounts","rows":[{"account":1,"balance":-1000},{"account":100,"balance":1000}],"status":"ok"}
{"covered":3,"csv":"account,balance\n1,-1000\n100,1000\n","report":"accounts","status":"ok"}
{"covered":3,"report":"voucher","rows":[{"account":100,"credit":0,"debit":1000,"line":1},{"account":1,"credit":1000,"debit":0,"line":1}],"status":"ok"}
{"covered":3,"csv":"line,account,debit,credit\n1,100,1000,0\n1,1,0,1000\n","report":"voucher","status":"ok"}
{"covered":3,"csv":"item,store,record,line,qty,value\nB,W1,3,1,10,1000\n","report":"layers","status":"ok"}
{"covered":3,"csv":"item,store,qty,value\nB,W1,10,1000\n","report":"balance","status":"ok"}
"#;

// The first turns fetch the records and value the receipt, and those after them publish.
const WORKS: &str = r#"{"do":"item","code":"A","method":"fifo"}
{"do":"item","code":"B","method":"average"}
{"do":"store","code":"W1","account":100}
{"do":"store","code":"W2","account":101}
{"do":"receipt","at":"2026-01-01T09:00:00","lines":[{"item":"A","store":"W1","qty":1,"amount":10}]}
{"do":"work","turns":2}
{"do":"work","turns":5}
"#;

const WORKS_REPLIES: &str = r#"{"record":1,"status":"accepted"}
{"record":2,"status":"accepted"}
{"record":3,"status":"accepted"}
{"record":4,"status":"accepted"}
{"record":5,"status":"accepted"}
{"covered":0,"status":"worked"}
{"covered":5,"status":"worked"}
"#;

const SETTLE: &str = r#"{"do":"settle"}"#;

const SETTLED: &str = "{\"covered\":0,\"status\":\"settled\"}\n";

// How many bytes a read takes at most, where no other number is tried.
const PIECE: usize = 50_000;

const LONG: &str = "{\"fault\":\"long\",\"status\":\"bad\"}\n";

// The two records that a receipt needs.
const HEAD: &str = r#"{"do":"item","code":"B","method":"average"}
{"do":"store","code":"W1","account":100}
"#;

const RECEIPT: &str = r#"{"do":"receipt","at":"2026-01-02T09:00:00","lines":["#;

const LINE: &str = r#"{"item":"B","store":"W1","qty":1,"amount":100}"#;

const ACCEPTED: &str = r#"{"record":1,"status":"accepted"}
{"record":2,"status":"accepted"}
{"record":3,"status":"accepted"}
"#;

const LIMITED: &str = r#"{"record":1,"status":"accepted"}
{"record":2,"status":"accepted"}
{"fault":"limit","field":"lines","line":0,"status":"bad"}
"#;

/// Runs a batch with ample memory over an input in pieces of so many bytes, and streams that never fail. That it is done no clause says, since want
/// of memory is free.
fn check(
    rt: &(impl Abort + Threads + Wait + Sync),
    alloc: Global,
    input: &[u8],
    piece: usize,
    want: &str,
) -> Result<(), Fail>
    requires { 0 < piece }
{
    let mut shelf = shelf(alloc, None)?;
    let input = Vec::from_slice(alloc, input)?;
    let ended = run(rt, alloc, &["batch"], &mut shelf, input, piece, NEVER)?;
    assert_eq!(rt; ended.status, 0);
    assert!(rt; ended.output.bytes() == want.as_bytes());
    Ok(())
}

#[test]
fn a_batch_is_answered(rt: HostRuntime) -> Result<(), Fail> {
    let alloc = rt.alloc();
    for (input, want) in [
        ("", ""),
        // A last line needs no line feed.
        (SETTLE, SETTLED),
        (FIRST, FIRST_REPLIES),
        (SALES, SALES_REPLIES),
        (FIRST_OUT, FIRST_OUT_REPLIES),
        (KINDS, KINDS_REPLIES),
        (SHEETS, SHEETS_REPLIES),
        (WORKS, WORKS_REPLIES),
    ] {
        check(&rt, alloc, input.as_bytes(), PIECE, want)?;
    }
    // However it comes.
    check(&rt, alloc, SALES.as_bytes(), 1, SALES_REPLIES)
}

/// The status of two settles of which the first read holds one whole and the front of the next.
fn ends(
    rt: &(impl Threads + Wait + Sync),
    alloc: Global,
    failing: Failing,
    status: u8,
    output: &str,
    notes: &str,
) -> Result<bool, NoMemory> {
    let mut input = Vec::from_slice(alloc, SETTLE.as_bytes())?;
    input.push(b'\n')?;
    input.extend_from_slice(SETTLE.as_bytes())?;
    let mut shelf = shelf(alloc, None)?;
    let piece = SETTLE.len() + 3;
    let ended = run(rt, alloc, &["batch"], &mut shelf, input, piece, failing)?;
    Ok(
        ended.status == status
            && ended.output.bytes() == output.as_bytes()
            && ended.notes.bytes() == notes.as_bytes(),
    )
}

#[test]
fn a_failure_is_told(rt: HostRuntime) -> Result<(), Fail> {
    let alloc = rt.alloc();
    let first_read = Failing {
        read: Some(1),
        ..NEVER
    };
    let read = Failing {
        read: Some(2),
        ..NEVER
    };
    let write = Failing {
        write: Some(1),
        ..NEVER
    };
    let silent = Failing {
        note: Some(1),
        ..read
    };
    for (failing, status, output, notes) in [
        (first_read, 4, "", "stockd: read failed\n"),
        (read, 4, SETTLED, "stockd: read failed\n"),
        (write, 5, "", "stockd: write failed\n"),
        // Notes that fail change no status.
        (silent, 4, SETTLED, ""),
    ] {
        assert!(rt; ends(&rt, alloc, failing, status, output, notes)?);
    }
    Ok(())
}

/// The text, then so many blanks, then the end.
fn padded(alloc: Global, text: &str, blanks: usize, end: &str) -> Result<Vec<u8>, NoMemory> {
    let mut line = Vec::from_slice(alloc, text.as_bytes())?;
    for _ in 0..blanks {
        line.push(b' ')?;
    }
    line.extend_from_slice(end.as_bytes())?;
    Ok(line)
}

#[test]
fn a_line_has_at_most_65_536_bytes(rt: HostRuntime) -> Result<(), Fail> {
    let alloc = rt.alloc();
    let blanks = 65_536 - SETTLE.len();
    for (text, blanks, end, want) in [
        (SETTLE, blanks, "\n", SETTLED),
        (SETTLE, blanks, "", SETTLED),
        (SETTLE, blanks + 1, "\n", LONG),
        (SETTLE, blanks + 1, "", LONG),
        ("", 70_000, "\n", ""),
        ("", 70_000, "", ""),
    ] {
        let input = padded(alloc, text, blanks, end)?;
        check(&rt, alloc, input.as_slice(), PIECE, want)?;
    }
    Ok(())
}

/// An item, a warehouse, and a receipt of so many equal lines.
fn receipt(alloc: Global, lines: usize) -> Result<Vec<u8>, NoMemory> {
    let mut input = Vec::from_slice(alloc, HEAD.as_bytes())?;
    input.extend_from_slice(RECEIPT.as_bytes())?;
    for _ in 1..lines {
        input.extend_from_slice(LINE.as_bytes())?;
        input.push(b',')?;
    }
    input.extend_from_slice(LINE.as_bytes())?;
    input.extend_from_slice(b"]}\n")?;
    Ok(input)
}

#[test]
fn a_voucher_has_at_most_100_lines(rt: HostRuntime) -> Result<(), Fail> {
    let alloc = rt.alloc();
    for (lines, want) in [(100, ACCEPTED), (101, LIMITED)] {
        let input = receipt(alloc, lines)?;
        check(&rt, alloc, input.as_slice(), PIECE, want)?;
    }
    Ok(())
}
