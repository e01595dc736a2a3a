//! The answer to a post, over the book.
ghost use Rattle.std.specs.Prelude.{◌≡◌, ◌≤◌, IfOk, OnErr, IsTrue};
ghost use Rattle.stock_io.specs.Counts.{NeverFalls};
ghost use Rattle.stock_nums.specs.declared.limits.TheConstants.{MAX_DESK};
ghost use Rattle.stock_model.specs.Limits.{is_within_limits};
ghost use Rattle.generation_book.specs.Follows.{start_of, Follows};
ghost use Rattle.book_answers.specs.Answers.{HasText, ShowsKeptStock};
ghost use Rattle.book_answers.specs.Posts.{Posts, CountsFailure};

use crate::refusing::{refused, told};
use generation_book::book::Book;
use std::alloc::Global;
use stock_keeper::keeper::Keeper;
use stock_model::answers::Answer;
use stock_model::records::Record;
use stock_model::replies::Reply;
use stock_model::vouchers::What;
use stock_nums::memory::NoMemory;
use stock_nums::numbers::DeskNo;

/// The answer to what this desk posts, at this point of the book's history.
///
/// # Errors
///
/// `NoMemory`: no record was accepted.
pub fn post<K: Keeper>(
    alloc: Global,
    book: &mut Book<K>,
    desk: DeskNo,
    what: What,
) -> Result<Answer, NoMemory>
    requires desk { desk.0 ≤ MAX_DESK }
    requires limits { IsTrue (is_within_limits what) }
    ensures posts { IfOk result (λ answer. Posts desk.0 book.old.history what answer book.new.history) }
    ensures text { IfOk result HasText }
    ensures keeps { IfOk result ShowsKeptStock }
    ensures faults { IfOk result (λ answer. CountsFailure answer book.old.keeper.faults book.new.keeper.faults) }
    ensures unchanged { OnErr result (book.new.history ≡ book.old.history) }
    ensures follows { Follows (start_of book.old) book.new }
    ensures never_falls { OnErr result (NeverFalls book.old.keeper.faults book.new.keeper.faults) }
{
    match book.post(alloc, Record { desk, what }) {
        Ok(number) => Ok(told(alloc, Reply::Accepted(number))),
        Err(fault) => refused(alloc, book, fault),
    }
}
