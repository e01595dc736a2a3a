//! A session with a mirror: what a peer asks over its connection, answered until one of both ends it.
ghost use Rattle.std.specs.Prelude.{◌≡◌, ◌^◌, ◌≤◌, true, length};
ghost use Rattle.stock_nums.specs.declared.limits.TheConstants.{MAX_DESK};
ghost use Rattle.desk_wire.specs.Waiting.{nothing_waits};
ghost use Rattle.desk_server.specs.Exchanging.{LeavesRest};
ghost use Rattle.desk_server.specs.Served.{IsServedOpen};
ghost use Rattle.mirrored_desk.specs.Served.{ServesMirrored};

use crate::report_reader::ReportReader;
use crate::serving::serve_requests;
use desk_server::session::{BYTE_LIMIT, End};
use desk_wire::inbox::Inbox;
use generation_book::book::Book;
use report_mirror::reader::MirrorReader;
use std::alloc::Global;
use std::sync::Wait;
use stock_io::link::Link;
use stock_keeper::keeper::Keeper;
use stock_nums::memory::NoMemory;
use stock_nums::numbers::DeskNo;
use turn_lock::lock::TurnLock;
use turn_lock::pass::Pass;

/// What a session leaves: the pass, the reader, and how it ended.
#[derive(Drop)]
pub struct Left<K: Keeper> {
    pub pass: Pass<Book<K>>,
    pub reader: MirrorReader,
    pub end: End,
}

/// Serves a peer over its connection, as the desk with this number, until one of both ends the session, and ends the connection.
/// A report is read from the mirror where it shows one that covers enough. Each other request is answered over the book in one turn of
/// the pass. It may wait, for its peer and for the lock, and for ever where nobody shows generations any more.
pub fn serve_desk_mirrored<K: Keeper, P: Link, R: Wait>(
    rt: &R,
    alloc: Global,
    lock: &TurnLock<Book<K>>,
    pass: Pass<Book<K>>,
    reader: MirrorReader,
    desk: DeskNo,
    link: &mut P,
) -> Left<K>
    requires same_lock { pass.lock ≡ lock.now.lock }
    requires number { desk.0 ≡ pass.view.number }
    requires desk { desk.0 ≤ MAX_DESK }

    // At most 2^32 bytes are taken, so fewer turns come.
    requires few_turns { length pass.view.stops ≤ 2 ^ 56 }
    ensures same_lock { result.pass.lock ≡ pass.lock }
    ensures rest { LeavesRest pass.view result.pass.view }
    ensures ended { P.ended link.new ≡ true }

    // The connection is ended after the session, and not before it too.
    ensures still_open { IsServedOpen P.ended
        (ServesMirrored P.left P.taken P.written P.Source.faults desk.0 pass.view result.pass.view reader result.reader)
        link.old result.end }
    ensures serves { ServesMirrored P.left P.taken P.written P.Source.faults desk.0 pass.view result.pass.view reader result.reader
        link.old link.new result.end }
{
    let left = serve(rt, alloc, lock, pass, reader, desk, link);
    link.end();
    left
}

// Serves a peer, if there is memory for what comes of it, and leaves its connection as open as it was.
fn serve<K: Keeper, P: Link, R: Wait>(
    rt: &R,
    alloc: Global,
    lock: &TurnLock<Book<K>>,
    pass: Pass<Book<K>>,
    reader: MirrorReader,
    desk: DeskNo,
    link: &mut P,
) -> Left<K>
    requires same_lock { pass.lock ≡ lock.now.lock }
    requires number { desk.0 ≡ pass.view.number }
    requires desk { desk.0 ≤ MAX_DESK }
    requires few_turns { length pass.view.stops ≤ 2 ^ 56 }
    ensures same_lock { result.pass.lock ≡ pass.lock }
    ensures rest { LeavesRest pass.view result.pass.view }
    ensures still_open { P.ended link.new ≡ P.ended link.old }
    ensures serves { ServesMirrored P.left P.taken P.written P.Source.faults desk.0 pass.view result.pass.view reader result.reader
        link.old link.new result.end }
{
    match Inbox::new(alloc, BYTE_LIMIT) {
        Ok(inbox) => serve_with(rt, alloc, lock, pass, reader, desk, inbox, link),
        Err(NoMemory) => Left {
            pass,
            reader,
            end: End::NoMemory,
        },
    }
}

// Serves a peer of whom nothing waits, with a reader that showed it nothing yet.
fn serve_with<K: Keeper, P: Link, R: Wait>(
    rt: &R,
    alloc: Global,
    lock: &TurnLock<Book<K>>,
    pass: Pass<Book<K>>,
    reader: MirrorReader,
    desk: DeskNo,
    inbox: Inbox,
    link: &mut P,
) -> Left<K>
    requires same_lock { pass.lock ≡ lock.now.lock }
    requires number { desk.0 ≡ pass.view.number }
    requires desk { desk.0 ≤ MAX_DESK }
    requires few_turns { length pass.view.stops ≤ 2 ^ 56 }
    requires new { inbox ≡ nothing_waits BYTE_LIMIT }
    ensures same_lock { result.pass.lock ≡ pass.lock }
    ensures rest { LeavesRest pass.view result.pass.view }
    ensures still_open { P.ended link.new ≡ P.ended link.old }
    ensures serves { ServesMirrored P.left P.taken P.written P.Source.faults desk.0 pass.view result.pass.view reader result.reader
        link.old link.new result.end }
{
    let reader = ReportReader::new(reader);
    let served = serve_requests(rt, alloc, lock, pass, reader, desk, inbox, link);
    Left {
        pass: served.pass,
        reader: served.reader.into_reader(),
        end: served.end,
    }
}
