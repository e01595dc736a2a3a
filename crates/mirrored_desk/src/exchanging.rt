//! One exchange: a body is read, and answered from the mirror or through the lock.
ghost use Rattle.std.specs.Prelude.{◌≡◌, ℕ, ◌^◌, ◌<◌, ◌≤◌, true, length, Ok};
ghost use Rattle.std.specs.Result.{ForOk};
ghost use Rattle.stock_nums.specs.declared.limits.TheConstants.{MAX_DESK};
ghost use Rattle.stock_model.specs.declared.requests.Request.TheVariants as request;
ghost use Rattle.voucher_json.specs.Requests.{IsReadAs, IsWithinLimits};
ghost use Rattle.session_laws.specs.Sessions.{IsAsked};
ghost use Rattle.report_mirror.specs.Mirrored.{IsMirrored};
ghost use Rattle.report_mirror.specs.declared.reader.Mirrored.TheVariants as mirrored;
ghost use Rattle.desk_server.specs.Answering.{IsOfDesk};
ghost use Rattle.desk_server.specs.Exchanging.{LeavesRest, IsAskedAs};
ghost use Rattle.desk_server.specs.Responding.{bytes_of};
ghost use Rattle.mirrored_desk.specs.Exchanging.{known, RespondsInStep};

use crate::report_reader::{Found, ReportReader, Responded};
use desk_server::exchanging::answer_read;
use desk_server::responding::Response;
use generation_book::book::Book;
use report_mirror::reader::Mirrored;
use std::alloc::Global;
use std::sync::Wait;
use stock_keeper::keeper::Keeper;
use stock_model::queries::{Query, Selected};
use stock_model::read_faults::ReadFault;
use stock_model::requests::Request;
use stock_nums::memory::NoMemory;
use stock_nums::numbers::{DeskNo, RecordNo};
use turn_lock::lock::TurnLock;
use turn_lock::pass::Pass;
use voucher_json::reading::read_request;

/// Where a session stands: the desk's pass, its reader of the mirror, and how many records the answers to its peer said at most to be
/// covered.
#[derive(Drop)]
pub struct SessionState<K: Keeper> {
    pub pass: Pass<Book<K>>,
    pub reader: ReportReader,
    pub printed: RecordNo,
}

/// What an exchange leaves: where the session stands, and the response that is to be written.
#[derive(Drop)]
pub struct Exchanged<K: Keeper> {
    pub state: SessionState<K>,
    pub response: Response,
}

/// Answers a body that asks to close the connection or not. A report is read from the mirror, and takes no turn of the pass, unless the
/// mirror is behind or memory is wanting. Every other request takes a turn. Where nobody shows generations any more, it may wait for ever.
pub fn exchange<K: Keeper, R: Wait>(
    rt: &R,
    alloc: Global,
    lock: &TurnLock<Book<K>>,
    state: SessionState<K>,
    desk: DeskNo,
    body: &[u8],
    close: bool,
) -> Exchanged<K>
    requires same_lock { state.pass.lock ≡ lock.now.lock }
    requires number { desk.0 ≡ state.pass.view.number }
    requires desk { desk.0 ≤ MAX_DESK }
    requires few_turns { length state.pass.view.stops < 2 ^ 57 }
    ensures same_lock { result.state.pass.lock ≡ state.pass.lock }
    ensures rest { LeavesRest state.pass.view result.state.pass.view }
    ensures responds { RespondsInStep desk.0 (known state.pass.view state.reader state.printed.0)
        (known result.state.pass.view result.state.reader result.state.printed.0)
        (IsAsked (IsReadAs true) body.now) close (bytes_of result.response) }
{
    match read_request(alloc, body, true) {
        Ok(request) => answer_request(rt, alloc, lock, state, desk, request, close),
        Err(fault) => ask_lock(rt, alloc, lock, state, desk, Err(fault), close),
    }
}

// Answers a request: a report from the mirror or through the lock, and every other one through the lock.
fn answer_request<K: Keeper, R: Wait>(
    rt: &R,
    alloc: Global,
    lock: &TurnLock<Book<K>>,
    state: SessionState<K>,
    desk: DeskNo,
    request: Request,
    close: bool,
) -> Exchanged<K>
    requires same_lock { state.pass.lock ≡ lock.now.lock }
    requires number { desk.0 ≡ state.pass.view.number }
    requires desk { desk.0 ≤ MAX_DESK }
    requires few_turns { length state.pass.view.stops < 2 ^ 57 }
    requires limits { IsWithinLimits request }
    requires of_desk { IsOfDesk request }
    ensures same_lock { result.state.pass.lock ≡ state.pass.lock }
    ensures rest { LeavesRest state.pass.view result.state.pass.view }
    ensures responds { RespondsInStep desk.0 (known state.pass.view state.reader state.printed.0)
        (known result.state.pass.view result.state.reader result.state.printed.0)
        (IsAskedAs (Ok request)) close (bytes_of result.response) }
{
    match request {
        Request::Report(query) => report(rt, alloc, lock, state, desk, query, close),
        other => ask_lock(rt, alloc, lock, state, desk, Ok(other), close),
    }
}

// Asks the mirror for a report that covers no less than was printed before, and the lock where the mirror has none.
fn report<K: Keeper, R: Wait>(
    rt: &R,
    alloc: Global,
    lock: &TurnLock<Book<K>>,
    state: SessionState<K>,
    desk: DeskNo,
    query: Query,
    close: bool,
) -> Exchanged<K>
    requires same_lock { state.pass.lock ≡ lock.now.lock }
    requires number { desk.0 ≡ state.pass.view.number }
    requires desk { desk.0 ≤ MAX_DESK }
    requires few_turns { length state.pass.view.stops < 2 ^ 57 }
    ensures same_lock { result.state.pass.lock ≡ state.pass.lock }
    ensures rest { LeavesRest state.pass.view result.state.pass.view }
    ensures responds { RespondsInStep desk.0 (known state.pass.view state.reader state.printed.0)
        (known result.state.pass.view result.state.reader result.state.printed.0)
        (IsAskedAs (Ok (request.Report query))) close (bytes_of result.response) }
{
    let SessionState {
        pass,
        reader,
        printed,
    } = state;
    let Found { reader, found } = reader.look(rt, &query, printed);
    let state = SessionState {
        pass,
        reader,
        printed,
    };
    match found {
        Ok(Mirrored::Report(selected)) => show(alloc, state, query, selected, close),
        Ok(Mirrored::Behind(_)) | Err(NoMemory) => {
            let read = Ok(Request::Report(query));
            ask_lock(rt, alloc, lock, state, desk, read, close)
        }
    }
}

// Shows what was read from the mirror, or tells that memory was wanting for its text. The desk is not in a turn.
fn show<K: Keeper>(
    alloc: Global,
    state: SessionState<K>,
    query: Query,
    selected: Selected,
    close: bool,
) -> Exchanged<K>
    requires { IsMirrored state.reader query state.printed.0 (mirrored.Report selected) }
    ensures same_lock { result.state.pass.lock ≡ state.pass.lock }
    ensures rest { LeavesRest state.pass.view result.state.pass.view }
    ensures responds { (desk : ℕ) → RespondsInStep desk (known state.pass.view state.reader state.printed.0)
        (known result.state.pass.view result.state.reader result.state.printed.0)
        (IsAskedAs (Ok (request.Report query))) close (bytes_of result.response) }
{
    let covered = selected.covered;
    let Responded { reader, response } = state
        .reader
        .respond(alloc, &state.pass, query, selected, close);
    Exchanged {
        state: SessionState {
            pass: state.pass,
            reader,
            printed: covered,
        },
        response,
    }
}

// Answers what was read of a body through the lock.
fn ask_lock<K: Keeper, R: Wait>(
    rt: &R,
    alloc: Global,
    lock: &TurnLock<Book<K>>,
    state: SessionState<K>,
    desk: DeskNo,
    read: Result<Request, ReadFault>,
    close: bool,
) -> Exchanged<K>
    requires same_lock { state.pass.lock ≡ lock.now.lock }
    requires number { desk.0 ≡ state.pass.view.number }
    requires desk { desk.0 ≤ MAX_DESK }
    requires few_turns { length state.pass.view.stops < 2 ^ 57 }
    requires limits { ForOk read IsWithinLimits }
    requires of_desk { ForOk read IsOfDesk }
    ensures same_lock { result.state.pass.lock ≡ state.pass.lock }
    ensures rest { LeavesRest state.pass.view result.state.pass.view }
    ensures responds { RespondsInStep desk.0 (known state.pass.view state.reader state.printed.0)
        (known result.state.pass.view result.state.reader result.state.printed.0)
        (IsAskedAs read) close (bytes_of result.response) }
{
    let SessionState {
        pass,
        reader,
        printed,
    } = state;
    let answered = answer_read(rt, alloc, lock, pass, desk, read, close);
    Exchanged {
        state: SessionState {
            pass: answered.pass,
            reader,
            printed: RecordNo(printed.0.max(answered.covered.0)),
        },
        response: answered.response,
    }
}
