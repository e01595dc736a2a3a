//! A worker whose gate waits, where movements are left to value, for what a desk posts meanwhile.
ghost use Rattle.std.specs.Prelude.{◌≡◌, ◌<◌, ◌≤◌, [], Option, None};
ghost use Rattle.stock_nums.specs.declared.limits.TheConstants.{MAX_DESK};
ghost use Rattle.stock_model.specs.History.{covered_records};
ghost use Rattle.turn_lock.specs.Histories.{BeginsWith};
ghost use Rattle.session_laws.specs.Makers.{without_makers};
ghost use Rattle.repost_worker.specs.Turns.{IsWorkOf};

use crate::attending::attended;
use crate::mirrors::{EndingWriter, Mirrors, mirror_of};
use crate::signals::{MOST_TURNS, Signal};
use desk_server::session::End;
use generation_book::book::Book;
use locked_worker::gate::{Gate, Go};
use mirrored_desk::session::Left;
use mirrored_worker::run_mirrored::{Mirroring, run_mirrored};
use report_mirror::reader::MirrorReader;
use repost_build::build::Build;
use repost_worker::revalued_book::RevaluedBook;
use repost_worker::turn::Turned;
use std::alloc::Global;
use std::marker::Brand;
use std::sync::Wait;
use std::sync::ledger::{Blank, Ledger};
use std::test::Fail;
use std::thread;
use std::thread::Threads;
use stock_io::memory_link::MemLink;
use stock_keeper::fault::KeepFault;
use stock_keeper::nowhere::Nowhere;
use stock_nums::lines::Lines;
use stock_nums::memory::NoMemory;
use stock_nums::numbers::{DeskNo, RecordNo};
use stock_nums::steps::Steps;
use turn_lock::lock::TurnLock;
use turn_lock::pass::Pass;

// An item, a warehouse, two receipts and an issue.
const POSTS_FIVE: &[u8] = b"POST /desk HTTP/1.1\r\nHost: x\r\nContent-Length: 41\r\n\r\n\
    {\"do\":\"item\",\"code\":\"L1\",\"method\":\"fifo\"}\
    POST /desk HTTP/1.1\r\nHost: x\r\nContent-Length: 40\r\n\r\n\
    {\"do\":\"store\",\"code\":\"W1\",\"account\":100}\
    POST /desk HTTP/1.1\r\nHost: x\r\nContent-Length: 103\r\n\r\n\
    {\"do\":\"receipt\",\"at\":\"2026-01-02T00:00:00\",\"lines\":[{\"item\":\"L1\",\"store\":\"W1\",\"qty\":10,\"amount\":1000}]}\
    POST /desk HTTP/1.1\r\nHost: x\r\nContent-Length: 103\r\n\r\n\
    {\"do\":\"receipt\",\"at\":\"2026-01-03T00:00:00\",\"lines\":[{\"item\":\"L1\",\"store\":\"W1\",\"qty\":10,\"amount\":1300}]}\
    POST /desk HTTP/1.1\r\nHost: x\r\nContent-Length: 100\r\n\r\n\
    {\"do\":\"issue\",\"at\":\"2026-01-04T00:00:00\",\"use\":\"sold\",\"lines\":[{\"item\":\"L1\",\"store\":\"W1\",\"qty\":15}]}";

const POSTS_ITEM: &[u8] =
    b"POST /desk HTTP/1.1\r\nHost: x\r\nContent-Length: 41\r\n\r\n{\"do\":\"item\",\"code\":\"L2\",\"method\":\"fifo\"}";

const IS_DONE: &[u8] = b"HTTP/1.1 200 OK\r\n";

type Books = Book<Nowhere>;

// What the worker and the desk tell one another.
#[derive(Drop)]
struct Notices {
    // The worker valued a movement.
    valuing: Signal,
    // The desk has served its peer.
    served: Signal,
}

impl Notices {
    fn new() -> Notices {
        Notices {
            valuing: Signal::new(),
            served: Signal::new(),
        }
    }
}

// Once a movement was valued, it waits until the desk has served its peer. Then it stops where the worker was idle.
#[derive(Drop)]
struct UntilServed<'a, R: Wait> {
    rt: &'a R,
    notices: &'a Notices,
    asked: u32,
    has_waited: bool,
    gave_up: bool,
}

impl<'a, R: Wait> UntilServed<'a, R> {
    fn wait(&mut self) -> Go {
        self.has_waited = true;
        self.notices.valuing.set();
        if self.notices.served.is_set_in_time(self.rt) {
            Go::Work
        } else {
            self.give_up()
        }
    }

    fn give_up(&mut self) -> Go {
        self.gave_up = true;
        Go::Stop
    }
}

impl<'a, R: Wait> Gate for UntilServed<'a, R> {
    ghost told = { λ _. None };

    fn next(&mut self, last: &Result<Turned, KeepFault>) -> Go {
        if self.asked >= MOST_TURNS {
            return self.give_up();
        }
        self.asked += 1;
        match last {
            Ok(Turned::Valued(_)) if !self.has_waited => self.wait(),
            Ok(Turned::Idle) if self.has_waited => Go::Stop,
            Ok(_) => Go::Work,
            Err(_) => self.give_up(),
        }
    }
}

// Pass 0, the build that works with it, and who shows what is published.
#[derive(Drop)]
struct Worker<'a, R: Wait> {
    pass: Pass<Books>,
    build: Build,
    mirror: EndingWriter<'a, R>,
}

// What the gate saw.
#[derive(Drop)]
struct Gated {
    has_waited: bool,
    gave_up: bool,
}

// A desk's pass, its reader, and its peer.
#[derive(Drop)]
struct Desk {
    pass: Pass<Books>,
    reader: MirrorReader,
    link: MemLink,
}

// What came of a desk's session, and whether it waited in vain before it began.
#[derive(Drop)]
struct Served {
    link: MemLink,
    end: End,
    gave_up: bool,
}

// Works until the gate says to stop. The desk's peer only posts, so that nobody waits for the mirror that ends then.
fn work<'a, L: Ledger, R: Wait>(
    rt: &R,
    alloc: Global,
    lock: &TurnLock<Books>,
    notices: &Notices,
    worker: Worker<'a, R>,
    blank: Blank,
) -> (Pass<Books>, Gated)
    requires same_lock { worker.pass.lock ≡ lock.now.lock }
    requires zero { worker.pass.view.number ≡ 0 }
    requires work { IsWorkOf (without_makers worker.pass.view.seen) worker.build }
    requires shown { BeginsWith (covered_records (without_makers worker.pass.view.seen)) worker.mirror.writer }
    requires name { blank.name ≡ L.name }
    requires parts { blank.parts ≡ L.parts }
    requires some_parts { 0 < L.parts }
    ensures same_lock { result.0.lock ≡ worker.entry.pass.lock }
    ensures zero { result.0.view.number ≡ 0 }
    ensures split { result.0.view.split ≡ worker.entry.pass.view.split }
    ensures joined { result.0.view.joined ≡ worker.entry.pass.view.joined }
{
    let Worker {
        pass,
        mut build,
        mirror,
    } = worker;
    let mut steps = Steps::<L>::new(blank);
    let mut gate = UntilServed {
        rt,
        notices,
        asked: 0,
        has_waited: false,
        gave_up: false,
    };
    let Mirroring { pass, writer } = run_mirrored(
        rt,
        alloc,
        lock,
        pass,
        &mut build,
        &mut gate,
        mirror.into_writer(),
        &mut steps,
    );
    writer.end(rt);
    let gated = Gated {
        has_waited: gate.has_waited,
        gave_up: gate.gave_up,
    };
    (pass, gated)
}

// Serves the desk's peer, once the worker has valued a movement.
fn serve<R: Wait>(
    rt: &R,
    alloc: Global,
    lock: &TurnLock<Books>,
    notices: &Notices,
    number: DeskNo,
    desk: Desk,
) -> (Pass<Books>, Served)
    requires same_lock { desk.pass.lock ≡ lock.now.lock }
    requires number { number.0 ≡ desk.pass.view.number }
    requires desk { number.0 ≤ MAX_DESK }
    requires fresh { desk.pass.view.stops ≡ [] }
    ensures same_lock { result.0.lock ≡ desk.pass.lock }
{
    let Desk {
        pass,
        reader,
        mut link,
    } = desk;
    let gave_up = !notices.valuing.is_set_in_time(rt);
    let Left {
        pass,
        reader: _,
        end,
    } = attended(rt, alloc, lock, number, pass, reader, &mut link);
    notices.served.set();
    (pass, Served { link, end, gave_up })
}

// The worker and the desk, each in a thread.
fn in_threads<'a, L: Ledger + Send, R: Threads + Wait + Sync>(
    rt: &R,
    alloc: Global,
    lock: &TurnLock<Books>,
    notices: &Notices,
    worker: Worker<'a, R>,
    desk: Desk,
    blank: Blank,
) -> ((Pass<Books>, Gated), (Pass<Books>, Served))
    requires same_lock { (worker.pass.lock ≡ lock.now.lock) × (desk.pass.lock ≡ lock.now.lock) }
    requires zero { worker.pass.view.number ≡ 0 }
    requires two { desk.pass.view.number ≡ 2 }
    requires fresh { desk.pass.view.stops ≡ [] }
    requires work { IsWorkOf (without_makers worker.pass.view.seen) worker.build }
    requires shown { BeginsWith (covered_records (without_makers worker.pass.view.seen)) worker.mirror.writer }
    requires name { blank.name ≡ L.name }
    requires parts { blank.parts ≡ L.parts }
    requires some_parts { 0 < L.parts }
    ensures same_lock { (result.0.0.lock ≡ worker.entry.pass.lock) × (result.1.0.lock ≡ desk.pass.lock) }
    ensures zero { result.0.0.view.number ≡ 0 }
    ensures split { result.0.0.view.split ≡ worker.entry.pass.view.split }
    ensures joined { result.0.0.view.joined ≡ worker.entry.pass.view.joined }
{
    thread::join(
        rt,
        || work::<L, R>(rt, alloc, lock, notices, worker, blank),
        || serve(rt, alloc, lock, notices, DeskNo(2), desk),
    )
}

// What the worker and the desk leave, and the book.
#[derive(Drop)]
struct Outcome {
    gated: Gated,
    served: Served,
    book: Books,
}

fn link_of(alloc: Global, sends: &[u8]) -> Result<MemLink, NoMemory> {
    let bytes = Lines::from_vec(sends.to_vec(alloc)?);
    MemLink::new(
        alloc,
        bytes,
        1_000,
        2_000,
        Lines::new(alloc),
        Lines::new(alloc),
    )
}

fn five_posts(alloc: Global) -> Result<MemLink, NoMemory> {
    link_of(alloc, POSTS_FIVE)
}

fn one_post(alloc: Global) -> Result<MemLink, NoMemory> {
    link_of(alloc, POSTS_ITEM)
}

fn has_gone_on(gated: &Gated) -> bool {
    gated.has_waited && !gated.gave_up
}

// Whether the desk began in time, and its peer's post was done.
fn is_done(served: &Served) -> bool {
    !served.gave_up && served.end == End::Closed && served.link.written().starts_with(IS_DONE)
}

fn covers_six(book: &Books) -> bool {
    book.accepted() == RecordNo(6) && book.covered() == RecordNo(6)
}

// Ends the lock.
fn closed(
    lock: TurnLock<Books>,
    pass: Pass<Books>,
    first: Pass<Books>,
    second: Pass<Books>,
) -> Books
    requires same_lock { (pass.lock ≡ lock.lock) × (first.lock ≡ lock.lock) × (second.lock ≡ lock.lock) }
    requires zero { pass.view.number ≡ 0 }
    requires two { pass.view.split ≡ 2 }
    requires none_joined { pass.view.joined ≡ [] }
{
    let pass = lock.join(pass, second);
    let pass = lock.join(pass, first);
    lock.close(pass)
}

// Posts what the first peer sends, and then lets a worker and the desk of the second one run beside one another. None where
// memory is wanting.
fn worked_beside<L: Ledger + Send, R: Threads + Wait + Sync>(
    rt: &R,
    alloc: Global,
    mut first: MemLink,
    second: MemLink,
    blank: Blank,
) -> Option<Outcome>
    requires name { blank.name ≡ L.name }
    requires parts { blank.parts ≡ L.parts }
    requires some_parts { 0 < L.parts }
{
    let (book, build) = RevaluedBook::<Nowhere>::start(alloc).into_parts();
    let Some(Mirrors { writer, reader }) = mirror_of(rt, alloc, &book) else {
        return None;
    };
    let mirror = EndingWriter::new(rt, writer);
    let Ok((lock, pass)) = TurnLock::new(alloc, book, 3) else {
        return None;
    };
    let Ok((pass, one)) = lock.split(pass) else {
        unreachable!()
    };
    let Ok((pass, two)) = lock.split(pass) else {
        unreachable!()
    };
    let before = attended(rt, alloc, &lock, DeskNo(1), one, reader, &mut first);
    let notices = Notices::new();
    let worker = Worker {
        pass,
        build,
        mirror,
    };
    let desk = Desk {
        pass: two,
        reader: before.reader,
        link: second,
    };
    let ((pass, gated), (two, served)) = in_threads::<L, R>(
        rt, alloc, &lock, &notices, worker, desk, blank,
    );
    let book = closed(lock, pass, before.pass, two);
    Some(Outcome {
        gated,
        served,
        book,
    })
}

#[test]
fn a_worker_that_values_leaves_the_book_to_a_desk(rt: HostRuntime) -> Result<(), Fail> {
    let alloc = rt.alloc();
    let (first, second) = (five_posts(alloc)?, one_post(alloc)?);
    let Some(outcome) = worked_beside::<Brand, _>(&rt, alloc, first, second, Blank::new(1)) else {
        panic!(rt; "no memory")
    };
    assert!(rt; has_gone_on(&outcome.gated), "the worker goes on");
    assert!(rt; is_done(&outcome.served), "the desk serves its peer");
    assert!(rt; covers_six(&outcome.book), "all is published");
    Ok(())
}
