//! The answer to a report, over the book.
ghost use Rattle.std.specs.Prelude.{◌≡◌, IfOk};
ghost use Rattle.stock_model.specs.Reports.{report};
ghost use Rattle.book_answers.specs.Answers.{HasText, ShowsKeptStock};

use crate::refusing::told;
use generation_book::book::Book;
use std::alloc::Global;
use stock_keeper::keeper::Keeper;
use stock_laws::selected_laws::the_ledger_keeps_the_stock;
use stock_model::answers::Answer;
use stock_model::queries::{Query, SelectFault};
use stock_model::replies::Reply;
use stock_nums::memory::NoMemory;

/// The answer to a report at this point of the book's history. The only error is want of memory.
pub fn report<K: Keeper>(alloc: Global, book: &Book<K>, query: Query) -> Result<Answer, NoMemory>
    ensures answer { IfOk result (λ answer. answer ≡ report book.now.history query) }
    ensures text { IfOk result HasText }
    ensures keeps { IfOk result ShowsKeptStock }
{
    the_ledger_keeps_the_stock();
    match book.select(&query) {
        Ok(selected) => Ok(Answer::Shown { query, selected }),
        Err(SelectFault::Pending { covered, wanted }) => {
            Ok(told(alloc, Reply::Pending { covered, wanted }))
        }
        Err(SelectFault::NoSuchRecord { accepted, wanted }) => {
            Ok(told(alloc, Reply::NoSuchRecord { accepted, wanted }))
        }
        Err(SelectFault::NoMemory) => Err(NoMemory),
    }
}
