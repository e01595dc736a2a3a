//! What a request is answered over the book, and the response that comes of it once the book is given back.
ghost use Rattle.std.specs.Prelude.{ℕ, ◌≡◌, ◌≤◌, List, IsTrue};
ghost use Rattle.stock_nums.specs.declared.limits.TheConstants.{MAX_DESK};
ghost use Rattle.stock_nums.specs.declared.head.Head.{Head};
ghost use Rattle.stock_model.specs.Limits.{is_within_limits};
ghost use Rattle.stock_model.specs.declared.answers.Answer.TheVariants.{Told};
ghost use Rattle.stock_model.specs.declared.requests.Request.TheVariants as request;
ghost use Rattle.voucher_json.specs.Requests.{IsWithinLimits};
ghost use Rattle.mirrored_sessions.specs.Steps.{printed_in};
ghost use Rattle.desk_server.specs.Answering.{IsOfDesk, TellsNumber, AnswersOnceTold, CanBeTold, ComesTo, WritesNoSheet, covered_in};
ghost use Rattle.desk_server.specs.Responding.{bytes_of};

use crate::responding::{Response, acceptance, response_to};
use book_answers::{posting, reporting};
use generation_book::book::Book;
use std::alloc::Global;
use stock_keeper::keeper::Keeper;
use stock_model::answers::Answer;
use stock_model::queries::Query;
use stock_model::replies::Reply;
use stock_model::requests::Request;
use stock_model::vouchers::What;
use stock_nums::memory::NoMemory;
use stock_nums::numbers::{DeskNo, RecordNo};
use turn_lock::logged::Logged;
use turn_lock::pass::Pass;

/// What a turn at the book leaves to be told. A long text is made when the turn is over, so that nobody waits for it.
#[derive(Drop)]
pub enum Answered {
    /// This response, which is whole.
    Whole(Response),
    /// This answer, whose response is still to be made.
    Untold(Answer),
}

impl Answered {
    /// The response, or the one for want of memory where it is still to be made. The desk shows its pass, as it is not in a turn.
    pub fn finish<B: Logged>(self, alloc: Global, at_rest: &Pass<B>, close: bool) -> Response
        requires { CanBeTold self }
        ensures { ComesTo self close (bytes_of result) }
    {
        match self {
            Answered::Whole(response) => response,
            Answered::Untold(answer) => response_to(alloc, at_rest, &answer, close),
        }
    }

    /// How many records the answer says to be covered that is still to be told. A response that is whole says nothing of it.
    pub fn covered(&self) -> RecordNo
        ensures { result.0 ≡ covered_in self.now }
    {
        match self {
            Answered::Whole(_) => RecordNo(0),
            Answered::Untold(answer) => covered_told(answer),
        }
    }
}

// How many records the answer says to be covered, 0 where it says nothing of it.
fn covered_told(answer: &Answer) -> RecordNo
    ensures { result.0 ≡ printed_in answer.now }
{
    match answer {
        Answer::Shown { selected, .. } => selected.covered,
        Answer::Told { reply, .. } => covered_by(reply),
    }
}

fn covered_by(reply: &Reply) -> RecordNo
    ensures { (heads : List Head) → result.0 ≡ printed_in (Told reply.now heads) }
{
    match reply {
        Reply::Pending { covered, .. } => *covered,
        Reply::Accepted(_)
        | Reply::Refused(_)
        | Reply::NoSuchRecord { .. }
        | Reply::Worked(_)
        | Reply::Settled(_)
        | Reply::Long
        | Reply::Bad(_)
        | Reply::StoreFailed
        | Reply::MemoryFailed
        | Reply::Http => RecordNo(0),
    }
}

/// What a request of a desk is answered, at this point of the book's history. Where memory is wanting, nothing is kept.
pub fn respond<K: Keeper>(
    alloc: Global,
    book: &mut Book<K>,
    desk: DeskNo,
    request: Request,
    close: bool,
) -> Answered
    requires desk { desk.0 ≤ MAX_DESK }
    requires limits { IsWithinLimits request }
    requires of_desk { IsOfDesk request }
    ensures answers { AnswersOnceTold desk.0 request close book.old book.new result }
    ensures told { CanBeTold result }
    ensures no_sheet { WritesNoSheet request result }
{
    match request {
        Request::Post(what) => post(alloc, book, desk, what, close),
        Request::Report(query) => report(alloc, book, query, close),
        Request::Work(_) | Request::Settle => unreachable!(),
    }
}

// The response that accepts the record is made first, so that what is kept is told whatever memory there is.
fn post<K: Keeper>(
    alloc: Global,
    book: &mut Book<K>,
    desk: DeskNo,
    what: What,
    close: bool,
) -> Answered
    requires desk { desk.0 ≤ MAX_DESK }
    requires limits { IsTrue (is_within_limits what) }
    ensures answers { AnswersOnceTold desk.0 (request.Post what) close book.old book.new result }
    ensures told { CanBeTold result }
{
    let next = RecordNo(book.accepted().0.saturating_add(1));
    let Response::Text(text) = acceptance(alloc, next, close) else {
        return Answered::Whole(Response::NoMemory { close });
    };
    let Ok(answer) = posting::post(alloc, book, desk, what) else {
        return Answered::Whole(Response::NoMemory { close });
    };
    match number_told(&answer) {
        Some(_) => Answered::Whole(Response::Text(text)),
        None => Answered::Untold(answer),
    }
}

// The number under which a record was accepted, if the answer tells that one was.
fn number_told(answer: &Answer) -> Option<RecordNo>
    ensures { TellsNumber answer.now result }
{
    match answer {
        Answer::Told {
            reply: Reply::Accepted(number),
            heads,
        } if heads.is_empty() => Some(*number),
        _ => None,
    }
}

fn report<K: Keeper>(alloc: Global, book: &Book<K>, query: Query, close: bool) -> Answered
    ensures answers { (desk : ℕ) → AnswersOnceTold desk (request.Report query) close book.now book.now result }
    ensures told { CanBeTold result }
    ensures no_sheet { WritesNoSheet (request.Report query) result }
{
    match reporting::report(alloc, book, query) {
        Ok(answer) => Answered::Untold(answer),
        Err(NoMemory) => Answered::Whole(Response::NoMemory { close }),
    }
}
