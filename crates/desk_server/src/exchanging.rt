//! One exchange: what was read of a body is answered through the lock.
ghost use Rattle.std.specs.Prelude.{◌≡◌, ◌^◌, ◌<◌, ◌≤◌, length};
ghost use Rattle.std.specs.Result.{ForOk};
ghost use Rattle.stock_nums.specs.declared.limits.TheConstants.{MAX_DESK};
ghost use Rattle.voucher_json.specs.Requests.{IsWithinLimits};
ghost use Rattle.desk_server.specs.Answering.{IsOfDesk};
ghost use Rattle.desk_server.specs.Exchanging.{LeavesRest, RespondsInTurn, RespondsWithin, IsAskedAs, TellsFault};
ghost use Rattle.desk_server.specs.Responding.{bytes_of};

use crate::answering::respond;
use crate::responding::{Response, response_to};
use book_answers::refusing::bad;
use generation_book::book::Book;
use std::alloc::Global;
use std::sync::Wait;
use stock_keeper::keeper::Keeper;
use stock_model::read_faults::ReadFault;
use stock_model::requests::Request;
use stock_nums::memory::NoMemory;
use stock_nums::numbers::{DeskNo, RecordNo};
use turn_lock::lock::TurnLock;
use turn_lock::logged::Logged;
use turn_lock::pass::Pass;

/// What an exchange leaves: the pass, the response that is to be written, and how many records at most its answer says to be covered.
#[derive(Drop)]
pub struct Exchanged<K: Keeper> {
    pub pass: Pass<Book<K>>,
    pub response: Response,
    pub covered: RecordNo,
}

/// Answers what was read as a body: the request that it is, in a turn of the pass, or why it is none.
pub fn answer_read<K: Keeper, R: Wait>(
    rt: &R,
    alloc: Global,
    lock: &TurnLock<Book<K>>,
    pass: Pass<Book<K>>,
    desk: DeskNo,
    read: Result<Request, ReadFault>,
    close: bool,
) -> Exchanged<K>
    requires same_lock { pass.lock ≡ lock.now.lock }
    requires number { desk.0 ≡ pass.view.number }
    requires desk { desk.0 ≤ MAX_DESK }
    requires few_turns { length pass.view.stops < 2 ^ 57 }
    requires limits { ForOk read IsWithinLimits }
    requires of_desk { ForOk read IsOfDesk }
    ensures same_lock { result.pass.lock ≡ pass.lock }
    ensures rest { LeavesRest pass.view result.pass.view }
    ensures responds { RespondsWithin desk.0 pass.view result.pass.view (IsAskedAs read) close
        (bytes_of result.response) result.covered.0 }
{
    match read {
        Ok(request) => take_turn(rt, alloc, lock, pass, desk, request, close),
        Err(fault) => Exchanged {
            response: bad_response(alloc, &pass, fault, close),
            pass,
            covered: RecordNo(0),
        },
    }
}

// Answers a request in a turn of the pass. The response is made when the turn is over.
fn take_turn<K: Keeper, R: Wait>(
    rt: &R,
    alloc: Global,
    lock: &TurnLock<Book<K>>,
    pass: Pass<Book<K>>,
    desk: DeskNo,
    request: Request,
    close: bool,
) -> Exchanged<K>
    requires same_lock { pass.lock ≡ lock.now.lock }
    requires number { desk.0 ≡ pass.view.number }
    requires desk { desk.0 ≤ MAX_DESK }
    requires few_turns { length pass.view.stops < 2 ^ 57 }
    requires limits { IsWithinLimits request }
    requires of_desk { IsOfDesk request }
    ensures same_lock { result.pass.lock ≡ pass.lock }
    ensures rest { LeavesRest pass.view result.pass.view }
    ensures responds { RespondsInTurn desk.0 pass.view result.pass.view request close
        (bytes_of result.response) result.covered.0 }
{
    let mut held = lock.take(rt, pass);
    let answered = respond(alloc, held.book(), desk, request, close);
    let pass = lock.give(held);
    let covered = answered.covered();
    Exchanged {
        response: answered.finish(alloc, &pass, close),
        pass,
        covered,
    }
}

// The response to a body that is no request.
fn bad_response<B: Logged>(
    alloc: Global,
    at_rest: &Pass<B>,
    fault: ReadFault,
    close: bool,
) -> Response
    ensures { TellsFault fault close (bytes_of result) }
{
    match bad(alloc, fault) {
        Ok(answer) => response_to(alloc, at_rest, &answer, close),
        Err(NoMemory) => Response::NoMemory { close },
    }
}
