//! A service of desks over a ledger that is kept.
ghost use Rattle.std.specs.Prelude.{◌≡◌, ◌<◌, ◌≤◌, Err, IfOk, IfErr, OnErr, string_bytes};
ghost use Rattle.stock_nums.specs.declared.limits.TheConstants.{MAX_DESK};
ghost use Rattle.stock_io.specs.Counts.{NeverFalls};
ghost use Rattle.stock_io.specs.Listeners.{IsFresh};
ghost use Rattle.stock_model.specs.History.{IsLegal};
ghost use Rattle.stock_keeper.specs.Keeping.{Within, AsksAt};
ghost use Rattle.repost_worker.specs.Paces.{pace_of};
ghost use Rattle.repost_worker.specs.Turns.{IsWorkOf};
ghost use Rattle.stock_io.specs.Heard.{heard};
ghost use Rattle.desk_service.specs.Service.{AreServedBy};
ghost use Rattle.stock_serving.specs.Serving.{summary_text, Settles, Leaves, LeavesKept, IsWritten, ServesOverShelf, ListensTo};

use crate::putting_back::{PutBack, put_back};
use desk_service::service::{NotServed, Served, serve};
use generation_book::book::Book;
use repost_worker::opening::NotOpened;
use repost_worker::revalued_book::RevaluedBook;
use std::alloc::Global;
use std::sync::Wait;
use std::thread::Threads;
use stock_ends::end::End;
use stock_ends::opening::{end_of, end_of_refusal, keeper_of};
use stock_io::link::Link;
use stock_io::listener::Listener;
use stock_io::sink::{Sink, write_all};
use stock_keeper::keeper::Keeper;
use stock_keeper::shelf::Shelf;
use stock_nums::memory::NoMemory;

/// How a service ended, and its listener.
#[derive(Drop)]
pub struct ServiceEnd<L> {
    pub end: End,
    pub listener: L,
}

// What a service over a keeper leaves: its summary, or the end that it came to before.
struct KeptEnd<K, L> {
    summary: Result<String, End>,
    keeper: K,
    listener: L,
}

// The same over a book.
struct BookEnd<K: Keeper, L> {
    summary: Result<String, End>,
    book: RevaluedBook<K>,
    listener: L,
}

/// Listens at the port and serves so many connections by so many desks, each in a thread of its own, over the ledger that the shelf has
/// at this path. A peer that is silent for `idle` seconds, if that is given, has its connection ended. Once all sessions have ended it
/// publishes what was accepted, puts the keeper back, and writes how many records are covered and accepted. Each keeper that is handed
/// out is put back. Where fewer peers come it ends as soon as those are served. It may wait, for peers and for the locks.
pub fn serve_over<
    H: Shelf,
    P: Link,
    L: Listener<Peer = P> + Send + Drop,
    O: Sink,
    R: Threads + Wait + Sync,
>(
    rt: &R,
    alloc: Global,
    shelf: &mut H,
    listener: L,
    path: &str,
    port: u16,
    idle: Option<u32>,
    desks: u32,
    connections: u32,
    output: &mut O,
) -> ServiceEnd<L>
    requires desks { (0 < desks) × (desks ≤ MAX_DESK) }
    requires connections { desks ≤ connections }
    ensures serves { ServesOverShelf H.Kept.tells H.tells H.plan H.faults H.kept_faults
        (heard L.waiting L.hung_up L.accepts L.hang_ups L.faults) O.written O.faults
        (AreServedBy P.left P.taken P.written P.Source.faults P.ended)
        (IsFresh P.taken P.written P.Source.faults P.ended) desks connections
        shelf.old shelf.new listener result.listener output.old output.new result.end }
    ensures opens { AsksAt H.opened H.openings path.now shelf.old shelf.new }
    ensures listens { ListensTo L.listens_to L.accepts port idle listener result.listener }
    ensures shelf_never_falls { NeverFalls (H.faults shelf.old) (H.faults shelf.new) }
    ensures listener_never_falls { NeverFalls (L.faults listener) (L.faults result.listener) }
    ensures output_never_falls { NeverFalls (O.faults output.old) (O.faults output.new) }
{
    let keeper = match shelf.open_keeper(path) {
        Ok(keeper) => keeper,
        Err(fault) => {
            return ServiceEnd {
                end: end_of_refusal(fault),
                listener,
            };
        }
    };
    let KeptEnd {
        summary,
        keeper,
        listener,
    } = serve_kept(rt, alloc, keeper, listener, port, idle, desks, connections);
    let back = put_back(shelf, keeper);
    let end = write_summary(back, summary, output);
    ServiceEnd { end, listener }
}

// Serves the peers over the ledger that the keeper keeps.
fn serve_kept<
    K: Keeper + Send,
    P: Link,
    L: Listener<Peer = P> + Send + Drop,
    R: Threads + Wait + Sync,
>(
    rt: &R,
    alloc: Global,
    keeper: K,
    listener: L,
    port: u16,
    idle: Option<u32>,
    desks: u32,
    connections: u32,
) -> KeptEnd<K, L>
    requires settled { Within (K.tells keeper) (K.may_leave keeper) }
    requires desks { (0 < desks) × (desks ≤ MAX_DESK) }
    requires connections { desks ≤ connections }
    ensures serves { LeavesKept K.tells K.may_leave K.faults K.plan K.calls
        (heard L.waiting L.hung_up L.accepts L.hang_ups L.faults)
        (AreServedBy P.left P.taken P.written P.Source.faults P.ended)
        (IsFresh P.taken P.written P.Source.faults P.ended) desks connections
        result.summary keeper result.keeper listener result.listener }
    ensures listens { ListensTo L.listens_to L.accepts port idle listener result.listener }
    ensures never_falls { NeverFalls (L.faults listener) (L.faults result.listener) }
{
    match RevaluedBook::begin(alloc, keeper) {
        Ok(book) => {
            let BookEnd {
                summary,
                book,
                listener,
            } = serve_book(rt, alloc, book, listener, port, idle, desks, connections);
            KeptEnd {
                summary,
                keeper: keeper_of(book),
                listener,
            }
        }
        Err(NotOpened { fault, keeper }) => KeptEnd {
            summary: Err(end_of(fault)),
            keeper,
            listener,
        },
    }
}

// Listens at the port, and serves the peers over the book.
fn serve_book<
    K: Keeper + Send,
    P: Link,
    L: Listener<Peer = P> + Send + Drop,
    R: Threads + Wait + Sync,
>(
    rt: &R,
    alloc: Global,
    book: RevaluedBook<K>,
    mut listener: L,
    port: u16,
    idle: Option<u32>,
    desks: u32,
    connections: u32,
) -> BookEnd<K, L>
    requires desks { (0 < desks) × (desks ≤ MAX_DESK) }
    requires connections { desks ≤ connections }
    ensures serves { Leaves
        (AreServedBy P.left P.taken P.written P.Source.faults P.ended)
        (IsFresh P.taken P.written P.Source.faults P.ended) desks connections result.summary book result.book
        (heard L.waiting L.hung_up L.accepts L.hang_ups L.faults listener)
        (heard L.waiting L.hung_up L.accepts L.hang_ups L.faults result.listener) }
    ensures listens { ListensTo L.listens_to L.accepts port idle listener result.listener }
    ensures never_falls { NeverFalls (L.faults listener) (L.faults result.listener) }
{
    match listener.listen(port, idle) {
        Ok(()) => serve_peers(rt, alloc, book, listener, desks, connections),
        Err(_) => BookEnd {
            summary: Err(End::ListenFailed),
            book,
            listener,
        },
    }
}

// Serves the peers over the book, and settles it once all that were wanted were served.
fn serve_peers<
    K: Keeper + Send,
    P: Link,
    L: Listener<Peer = P> + Send + Drop,
    R: Threads + Wait + Sync,
>(
    rt: &R,
    alloc: Global,
    book: RevaluedBook<K>,
    listener: L,
    desks: u32,
    connections: u32,
) -> BookEnd<K, L>
    requires desks { (0 < desks) × (desks ≤ MAX_DESK) }
    requires connections { desks ≤ connections }
    ensures serves { Leaves
        (AreServedBy P.left P.taken P.written P.Source.faults P.ended)
        (IsFresh P.taken P.written P.Source.faults P.ended) desks connections result.summary book result.book
        (heard L.waiting L.hung_up L.accepts L.hang_ups L.faults listener)
        (heard L.waiting L.hung_up L.accepts L.hang_ups L.faults result.listener) }
    ensures port_kept { L.listens_to result.listener ≡ L.listens_to listener }
    ensures never_falls { NeverFalls (L.faults listener) (L.faults result.listener) }
{
    let (book, build) = book.into_parts();
    match serve(rt, alloc, book, build, listener, desks, connections) {
        Ok(served) => settle_served(alloc, served, connections),
        Err(
            NotServed {
                book,
                build,
                listener,
            },
        ) => BookEnd {
            summary: Err(End::NoMemory),
            book: RevaluedBook::from_parts(book, build),
            listener,
        },
    }
}

// Settles the book where as many peers came as were wanted.
fn settle_served<K: Keeper, L>(
    alloc: Global,
    served: Served<K, L>,
    connections: u32,
) -> BookEnd<K, L>
    requires work { IsWorkOf served.book.history served.build }
    ensures listener { result.listener ≡ served.listener }
    ensures few { served.accepted < connections
        → (result.summary ≡ Err End.ListenFailed) × (result.book ≡ pace_of served.book served.build) }
    ensures all { connections ≤ served.accepted → Settles result.summary (pace_of served.book served.build) result.book }
    ensures legal { IsLegal served.book.history → IsLegal result.book.history }
{
    let Served {
        book,
        build,
        listener,
        accepted,
    } = served;
    let mut book = RevaluedBook::from_parts(book, build);
    let summary = if accepted < connections {
        Err(End::ListenFailed)
    } else {
        settle(alloc, &mut book)
    };
    BookEnd {
        summary,
        book,
        listener,
    }
}

// Publishes what was accepted, and makes the summary of that.
fn settle<K: Keeper>(alloc: Global, book: &mut RevaluedBook<K>) -> Result<String, End>
    ensures settles { Settles result book.old book.new }
    ensures legal { IsLegal book.old.history → IsLegal book.new.history }
{
    match book.work(alloc, None).stopped {
        Some(fault) => Err(end_of_refusal(fault)),
        None => match summary_text(alloc, book.book()) {
            Ok(text) => Ok(text),
            Err(NoMemory) => Err(End::NoMemory),
        },
    }
}

// The line that tells how many records are covered and accepted.
fn summary_text<K: Keeper>(alloc: Global, book: &Book<K>) -> Result<String, NoMemory>
    ensures { IfOk result (λ text. string_bytes text ≡ summary_text book.now.history) }
{
    let (covered, records) = (book.covered().0, book.accepted().0);
    let text = format!(in alloc; "{{\"covered\":{covered},\"records\":{records}}}\n")?;
    Ok(text)
}

// Writes the summary, once the keeper is back. The end is that of the service where there is none.
fn write_summary<O: Sink>(_back: PutBack, summary: Result<String, End>, output: &mut O) -> End
    ensures written { IfOk summary (λ text. IsWritten O.written O.faults result (string_bytes text) output.old output.new) }
    ensures end_kept { IfErr summary (λ end. result ≡ end) }
    ensures nothing_written { OnErr summary (output.new ≡ output.old) }
    ensures never_falls { NeverFalls (O.faults output.old) (O.faults output.new) }
{
    let text = match summary {
        Ok(text) => text,
        Err(end) => return end,
    };
    match write_all(output, text.as_bytes()) {
        Ok(()) => End::Done,
        Err(_) => End::WriteFailed,
    }
}
