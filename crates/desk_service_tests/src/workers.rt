//! A worker's run over a book that it alone takes from its lock.
ghost use Rattle.std.specs.Prelude.{◌≡◌, ◌<◌, Option, None};

use crate::balances::{Balances, look};
use crate::mirrors::{Mirrors, mirror_of};
use crate::records::{ITEM, RECEIPT, SALE, STORE, book_of};
use locked_worker::gate::{Gate, Go};
use mirrored_worker::run_mirrored::{Mirroring, run_mirrored};
use repost_worker::revalued_book::RevaluedBook;
use repost_worker::turn::Turned;
use std::alloc::Global;
use std::marker::Brand;
use std::sync::Wait;
use std::sync::ledger::{Blank, Ledger};
use stock_keeper::fault::KeepFault;
use stock_keeper::nowhere::Nowhere;
use stock_nums::numbers::RecordNo;
use stock_nums::steps::Steps;
use turn_lock::lock::TurnLock;

/// Waits for nothing, and says to stop once the worker was idle.
#[derive(Drop)]
pub struct UntilIdle {
    asked: u32,
    valued: u32,
    published: Option<RecordNo>,
    failed: bool,
}

impl UntilIdle {
    /// A gate that was not asked yet.
    pub fn new() -> UntilIdle {
        UntilIdle {
            asked: 0,
            valued: 0,
            published: None,
            failed: false,
        }
    }
}

impl Gate for UntilIdle {
    ghost told = { λ _. None };

    fn next(&mut self, last: &Result<Turned, KeepFault>) -> Go {
        let is_first = self.asked == 0;
        self.asked = self.asked.saturating_add(1);
        match last {
            Ok(Turned::Idle) if !is_first => return Go::Stop,
            Ok(Turned::Idle) | Ok(Turned::Fetched(_)) => {}
            Ok(Turned::Valued(_)) => self.valued = self.valued.saturating_add(1),
            Ok(Turned::Published(n)) => self.published = Some(*n),
            Err(_) => {
                self.failed = true;
                return Go::Stop;
            }
        }
        Go::Work
    }
}

/// What a worker's run left.
#[derive(Drop)]
pub struct Worked {
    /// What the mirror had for the report before the run.
    pub before: Balances,
    /// What it has then.
    pub after: Balances,
    /// How many records the book covers.
    pub covered: RecordNo,
    /// How many turns at the lock the worker took.
    pub gives: u64,
}

/// Lets a worker run over the book, until it is idle, and looks for a report of all balances that covers so many records, before and
/// after it. None where memory is wanting.
pub fn run_over<R: Wait>(
    rt: &R,
    alloc: Global,
    book: RevaluedBook<Nowhere>,
    gate: &mut UntilIdle,
    need: u32,
) -> Option<Worked> {
    run_counted::<Brand, R>(rt, alloc, book, gate, need, Blank::new(1))
}

// The run, whose steps are counted.
fn run_counted<L: Ledger, R: Wait>(
    rt: &R,
    alloc: Global,
    book: RevaluedBook<Nowhere>,
    gate: &mut UntilIdle,
    need: u32,
    blank: Blank,
) -> Option<Worked>
    requires name { blank.name ≡ L.name }
    requires parts { blank.parts ≡ L.parts }
    requires some { 0 < L.parts }
{
    let mut steps = Steps::<L>::new(blank);
    let (book, mut build) = book.into_parts();
    let Some(Mirrors { writer, reader }) = mirror_of(rt, alloc, &book) else {
        return None;
    };
    let before = look(rt, alloc, reader, need);
    let Ok((lock, pass)) = TurnLock::new(alloc, book, 1) else {
        writer.end(rt);
        return None;
    };
    let Mirroring { pass, writer } = run_mirrored(
        rt, alloc, &lock, pass, &mut build, gate, writer, &mut steps,
    );
    let after = look(rt, alloc, before.reader, need);
    writer.end(rt);
    let gives = pass.gives();
    let book = lock.close(pass);
    Some(Worked {
        before: before.balances,
        after: after.balances,
        covered: book.covered(),
        gives,
    })
}

#[test]
fn a_worker_values_and_publishes(rt: HostRuntime) {
    let alloc = rt.alloc();
    let Some(book) = book_of(alloc, &[ITEM, STORE, RECEIPT, SALE]) else {
        panic!(rt; "all is accepted")
    };
    let mut gate = UntilIdle::new();
    let Some(worked) = run_over(&rt, alloc, book, &mut gate, 0) else {
        panic!(rt; "no memory")
    };
    // a fetch, a publication, a look, and nothing to do are four turns at the lock
    assert!(rt; worked.covered == RecordNo(4) && worked.gives == 4);
    assert!(rt; (gate.asked, gate.valued) == (6, 2));
    assert!(rt; gate.published == Some(RecordNo(4)) && !gate.failed);
}
