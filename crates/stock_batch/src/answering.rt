//! The answer to a request, over the book.
ghost use Rattle.std.specs.Prelude.{◌≡◌, ◌<◌, ℕ, List, [], Some, IfOk, OnErr, IsTrue, false};
ghost use Rattle.stock_model.specs.Limits.{is_within_limits};
ghost use Rattle.stock_model.specs.declared.replies.Reply.TheVariants as reply;
ghost use Rattle.stock_model.specs.History.{IsLegal};
ghost use Rattle.stock_model.specs.Run.{IsAnswerTo};
ghost use Rattle.repost_worker.specs.Paces.{IsSamePace};
ghost use Rattle.stock_keeper.specs.declared.fault.KeepFault.TheVariants as keep_fault;
ghost use Rattle.voucher_json.specs.Requests.{IsReadAs, IsWithinLimits};
ghost use Rattle.voucher_json.specs.ReplyText.{IsPrinted};
ghost use Rattle.book_answers.specs.Answers.{HasText, ShowsKeptStock};
ghost use Rattle.stock_batch.specs.OpenLines.{StandsForLine};
ghost use Rattle.stock_batch.specs.Paces.{KeepsPace, CallsKeeper, IsStopped, IsAfterTurns, PacedStep};

use crate::open_line::OpenLine;
use book_answers::refusing::{bad, refused, told};
use book_answers::reporting;
use repost_worker::revalued_book::RevaluedBook;
use std::alloc::Global;
use stock_keeper::fault::KeepFault;
use stock_keeper::keeper::Keeper;
use stock_model::answers::Answer;
use stock_model::queries::Query;
use stock_model::records::Record;
use stock_model::replies::Reply;
use stock_model::requests::Request;
use stock_model::vouchers::What;
use stock_nums::memory::NoMemory;
use stock_nums::numbers::DeskNo;
use voucher_json::reading::{read_request, requests_have_one_reading};

/// The answer to a line that is not blank, at this point of the book's history. A long line
/// takes no memory.
///
/// # Errors
///
/// `NoMemory`: no record was accepted. What turns had published by then stands.
pub fn answer_to<K: Keeper>(
    alloc: Global,
    book: &mut RevaluedBook<K>,
    line: &OpenLine,
) -> Result<Answer, NoMemory>
    ensures step { IfOk result (λ answer. (text : List ℕ) → StandsForLine line.now text → PacedStep (IsReadAs false) book.old text answer book.new) }
    ensures text { IfOk result HasText }
    ensures keeps { IfOk result ShowsKeptStock }
    ensures legal { IfOk result (λ _. IsLegal book.old.history → IsLegal book.new.history) }
    ensures stopped { OnErr result (IsStopped book.old book.new) }
    ensures long { IsTrue line.now.long → result ≡ Ok (Answer.Told reply.Long []) }
{
    requests_have_one_reading();
    if line.long {
        return Ok(told(alloc, Reply::Long));
    }
    match read_request(alloc, line.bytes.as_slice(), false) {
        Ok(request) => answer(alloc, book, request),
        Err(fault) => bad(alloc, fault),
    }
}

fn answer<K: Keeper>(
    alloc: Global,
    book: &mut RevaluedBook<K>,
    request: Request,
) -> Result<Answer, NoMemory>
    requires { IsWithinLimits request }
    ensures answers { IfOk result (λ answer. IsAnswerTo book.old.history request answer book.new.history) }
    ensures pace { IfOk result (λ answer. KeepsPace book.old request answer book.new) }
    ensures calls { IfOk result (λ answer. CallsKeeper book.old answer book.new) }
    ensures text { IfOk result HasText }
    ensures keeps { IfOk result ShowsKeptStock }
    ensures legal { IfOk result (λ _. IsLegal book.old.history → IsLegal book.new.history) }
    ensures stopped { OnErr result (IsStopped book.old book.new) }
{
    match request {
        Request::Post(what) => post(alloc, book, what),
        Request::Work(turns) => work(alloc, book, turns),
        Request::Settle => settle(alloc, book),
        Request::Report(query) => report(alloc, book, query),
    }
}

/// Posts a record of desk 0 that says this.
///
/// # Errors
///
/// `NoMemory`: the record was not accepted.
pub fn post<K: Keeper>(
    alloc: Global,
    book: &mut RevaluedBook<K>,
    what: What,
) -> Result<Answer, NoMemory>
    requires { IsTrue (is_within_limits what) }
    ensures answers { IfOk result (λ answer. IsAnswerTo book.old.history (Request.Post what) answer book.new.history) }
    ensures pace { IsSamePace book.old book.new }
    ensures calls { IfOk result (λ answer. CallsKeeper book.old answer book.new) }
    ensures text { IfOk result HasText }
    ensures keeps { IfOk result ShowsKeptStock }
    ensures legal { IfOk result (λ _. IsLegal book.old.history → IsLegal book.new.history) }
    ensures stopped { OnErr result (IsStopped book.old book.new) }
{
    let item = Record {
        desk: DeskNo(0),
        what,
    };
    match book.post(alloc, item) {
        Ok(number) => Ok(told(alloc, Reply::Accepted(number))),
        Err(fault) => refused(alloc, book.book(), fault),
    }
}

/// Makes so many turns.
fn work<K: Keeper>(
    alloc: Global,
    book: &mut RevaluedBook<K>,
    turns: u32,
) -> Result<Answer, NoMemory>
    requires { 0 < turns }
    ensures answers { IfOk result (λ answer. IsAnswerTo book.old.history (Request.Work turns) answer book.new.history) }
    ensures pace { IfOk result (λ answer. KeepsPace book.old (Request.Work turns) answer book.new) }
    ensures calls { IfOk result (λ answer. CallsKeeper book.old answer book.new) }
    ensures text { IfOk result HasText }
    ensures keeps { IfOk result ShowsKeptStock }
    ensures legal { IfOk result (λ _. IsLegal book.old.history → IsLegal book.new.history) }
    ensures stopped { OnErr result (IsStopped book.old book.new) }
{
    let ran = book.work(alloc, Some(turns));
    after_turns(alloc, ran.stopped, Reply::Worked(ran.covered))
}

/// Makes all turns that there are.
///
/// # Errors
///
/// `NoMemory`: what turns had published by then stands.
pub fn settle<K: Keeper>(alloc: Global, book: &mut RevaluedBook<K>) -> Result<Answer, NoMemory>
    ensures answers { IfOk result (λ answer. IsAnswerTo book.old.history Request.Settle answer book.new.history) }
    ensures pace { IfOk result (λ answer. KeepsPace book.old Request.Settle answer book.new) }
    ensures calls { IfOk result (λ answer. CallsKeeper book.old answer book.new) }
    ensures text { IfOk result HasText }
    ensures keeps { IfOk result ShowsKeptStock }
    ensures legal { IfOk result (λ _. IsLegal book.old.history → IsLegal book.new.history) }
    ensures stopped { OnErr result (IsStopped book.old book.new) }
{
    let ran = book.work(alloc, None);
    after_turns(alloc, ran.stopped, Reply::Settled(ran.covered))
}

/// The answer after turns: the reply, or that the store failed at the last of them.
///
/// # Errors
///
/// `NoMemory` where the last of them was refused for that.
fn after_turns(alloc: Global, stopped: Option<KeepFault>, reply: Reply) -> Result<Answer, NoMemory>
    requires { IsPrinted reply }
    ensures answer { IfOk result (IsAfterTurns stopped reply) }
    ensures text { IfOk result HasText }
    ensures memory { OnErr result (stopped ≡ Some keep_fault.NoMemory) }
{
    match stopped {
        None => Ok(told(alloc, reply)),
        Some(KeepFault::Failed) => Ok(told(alloc, Reply::StoreFailed)),
        Some(KeepFault::NoMemory) => Err(NoMemory),
    }
}

fn report<K: Keeper>(
    alloc: Global,
    book: &RevaluedBook<K>,
    query: Query,
) -> Result<Answer, NoMemory>
    ensures answers { IfOk result (λ answer. IsAnswerTo book.now.history (Request.Report query) answer book.now.history) }
    ensures text { IfOk result HasText }
    ensures keeps { IfOk result ShowsKeptStock }
{
    reporting::report(alloc, book.book(), query)
}
