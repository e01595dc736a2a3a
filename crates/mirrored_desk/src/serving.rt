//! The requests of a peer, heard and answered one after another.
ghost use Rattle.std.specs.Prelude.{◌≡◌, ◌^◌, ◌<◌, ◌≤◌, true, length};
ghost use Rattle.stock_nums.specs.declared.limits.TheConstants.{MAX_DESK};
ghost use Rattle.voucher_json.specs.Requests.{IsReadAs};
ghost use Rattle.desk_wire.specs.Streams.{LiesIn, size};
ghost use Rattle.desk_wire.specs.Waiting.{nothing_waits, after_passing};
ghost use Rattle.session_laws.specs.Sessions.{IsAsked};
ghost use Rattle.desk_server.specs.Exchanging.{LeavesRest};
ghost use Rattle.desk_server.specs.Served.{body_of};
ghost use Rattle.desk_server.specs.Writing.{AnswersNext};
ghost use Rattle.mirrored_desk.specs.Exchanging.{known, RespondsInStep};
ghost use Rattle.mirrored_desk.specs.Served.{ServesMirrored};

use crate::exchanging::{SessionState, exchange};
use crate::report_reader::ReportReader;
use desk_server::session::{BYTE_LIMIT, End};
use desk_server::writing::{end_at, write_response};
use desk_wire::heard::{Heard, Request};
use desk_wire::inbox::Inbox;
use generation_book::book::Book;
use std::alloc::Global;
use std::sync::Wait;
use stock_io::link::Link;
use stock_keeper::keeper::Keeper;
use stock_nums::numbers::{DeskNo, RecordNo};
use turn_lock::lock::TurnLock;
use turn_lock::pass::Pass;

/// What the requests of a peer leave: the desk's pass, its reader of the mirror, and the session's end.
#[derive(Drop)]
pub struct Served<K: Keeper> {
    pub pass: Pass<Book<K>>,
    pub reader: ReportReader,
    pub end: End,
}

// What one more request leaves: where the session stands, and its end if it has come.
#[derive(Drop)]
struct AfterRequest<K: Keeper> {
    state: SessionState<K>,
    end: Option<End>,
}

/// Answers one request after another until the session ends.
pub fn serve_requests<K: Keeper, P: Link, R: Wait>(
    rt: &R,
    alloc: Global,
    lock: &TurnLock<Book<K>>,
    pass: Pass<Book<K>>,
    reader: ReportReader,
    desk: DeskNo,
    mut inbox: Inbox,
    link: &mut P,
) -> Served<K>
    requires same_lock { pass.lock ≡ lock.now.lock }
    requires number { desk.0 ≡ pass.view.number }
    requires desk { desk.0 ≤ MAX_DESK }
    requires few_turns { length pass.view.stops ≤ 2 ^ 56 }
    requires new { inbox ≡ nothing_waits BYTE_LIMIT }
    ensures same_lock { result.pass.lock ≡ pass.lock }
    ensures rest { LeavesRest pass.view result.pass.view }
    ensures still_open { P.ended link.new ≡ P.ended link.old }
    ensures serves { ServesMirrored P.left P.taken P.written P.Source.faults desk.0 pass.view result.pass.view reader result.reader
        link.old link.new result.end }
{
    let mut state = SessionState {
        pass,
        reader,
        printed: RecordNo(0),
    };
    for _ in rt.forever() {
        match inbox.hear(link) {
            Err(_) => {
                return Served {
                    pass: state.pass,
                    reader: state.reader,
                    end: End::ReadFault,
                };
            }
            Ok(Heard::Last(stop)) => {
                let end = end_at(link, stop, inbox.bytes().len());
                return Served {
                    pass: state.pass,
                    reader: state.reader,
                    end,
                };
            }
            Ok(Heard::Next(request)) => {
                let answered = answer_next(rt, alloc, lock, state, desk, &mut inbox, request, link);
                if let Some(end) = answered.end {
                    return Served {
                        pass: answered.state.pass,
                        reader: answered.state.reader,
                        end,
                    };
                }
                state = answered.state;
            }
        }
    }
    unreachable!()
}

// Answers the request that waits at the front, lets it go, and writes the response.
fn answer_next<K: Keeper, P: Link, R: Wait>(
    rt: &R,
    alloc: Global,
    lock: &TurnLock<Book<K>>,
    state: SessionState<K>,
    desk: DeskNo,
    inbox: &mut Inbox,
    request: Request,
    link: &mut P,
) -> AfterRequest<K>
    requires same_lock { state.pass.lock ≡ lock.now.lock }
    requires number { desk.0 ≡ state.pass.view.number }
    requires desk { desk.0 ≤ MAX_DESK }
    requires few_turns { length state.pass.view.stops < 2 ^ 57 }
    requires waits { LiesIn inbox.old.bytes request }
    ensures same_lock { result.state.pass.lock ≡ state.pass.lock }
    ensures rest { LeavesRest state.pass.view result.state.pass.view }
    ensures passed { inbox.new ≡ after_passing inbox.old (size request) }
    ensures answered { AnswersNext P.written P.Source.faults
        (RespondsInStep desk.0 (known state.pass.view state.reader state.printed.0)
        (known result.state.pass.view result.state.reader result.state.printed.0)
        (IsAsked (IsReadAs true) (body_of inbox.old.bytes request)) request.close)
        request.close link.old link.new result.end }
    ensures left_kept { P.left link.new ≡ P.left link.old }
    ensures taken_kept { P.taken link.new ≡ P.taken link.old }
    ensures ended_kept { P.ended link.new ≡ P.ended link.old }
{
    let end_of_body = request.head + request.body;
    let body = &inbox.bytes()[request.head..end_of_body];
    let exchanged = exchange(rt, alloc, lock, state, desk, body, request.close);
    inbox.pass(end_of_body);
    let end = write_response(link, exchanged.response.bytes(), request.close);
    AfterRequest {
        state: exchanged.state,
        end,
    }
}
