//! Responses, which wait to be written.
ghost use Rattle.std.specs.Prelude.{◌≡◌, [], IfOk};
ghost use Rattle.book_answers.specs.Answers.{HasText};
ghost use Rattle.desk_server.specs.Responding.{bytes_of, IsResponse};
ghost use Rattle.desk_server.specs.Responses.{response_to};
ghost use Rattle.stock_model.specs.declared.answers.Answer.TheVariants.{Told};
ghost use Rattle.stock_model.specs.declared.replies.Reply.TheVariants.{Accepted};

use crate::refusing::no_memory;
use crate::statuses::status_of;
use book_answers::refusing::told;
use book_answers::texts::answer_text;
use desk_wire::response::response_text;
use std::alloc::Global;
use stock_model::answers::Answer;
use stock_model::replies::Reply;
use stock_nums::lines::Lines;
use stock_nums::memory::NoMemory;
use stock_nums::numbers::RecordNo;
use turn_lock::logged::Logged;
use turn_lock::pass::Pass;

/// A response that waits to be written.
#[derive(Drop)]
pub enum Response {
    /// This text.
    Text(Lines<u8>),
    /// Memory was wanting for another one. This one takes none.
    NoMemory { close: bool },
}

impl Response {
    /// The bytes of the response.
    pub fn bytes(&self) -> &[u8]
        ensures { result.now ≡ bytes_of self.now }
    {
        match self {
            Response::Text(text) => text.as_slice(),
            Response::NoMemory { close } => no_memory(*close).as_bytes(),
        }
    }
}

/// The response to an answer, or the one for want of memory. Its text may be long, so it is made by a desk that is not in a turn:
/// a desk in a turn has no pass to show.
pub fn response_to<B: Logged>(
    alloc: Global,
    _at_rest: &Pass<B>,
    answer: &Answer,
    close: bool,
) -> Response
    requires { HasText answer.now }
    ensures { IsResponse answer.now close result }
{
    made(alloc, answer, close)
}

/// The response that accepts a record under this number, or the one for want of memory. It is short, and may be made in a turn.
pub fn acceptance(alloc: Global, number: RecordNo, close: bool) -> Response
    ensures { IsResponse (Told (Accepted number) []) close result }
{
    made(alloc, &told(alloc, Reply::Accepted(number)), close)
}

// The response to an answer, or the one for want of memory.
fn made(alloc: Global, answer: &Answer, close: bool) -> Response
    requires { HasText answer.now }
    ensures { IsResponse answer.now close result }
{
    match text_of(alloc, answer, close) {
        Ok(text) => Response::Text(text),
        Err(NoMemory) => Response::NoMemory { close },
    }
}

// The text of the response to an answer.
fn text_of(alloc: Global, answer: &Answer, close: bool) -> Result<Lines<u8>, NoMemory>
    requires { HasText answer.now }
    ensures { IfOk result (λ text. text ≡ response_to answer.now close) }
{
    let body = answer_text(alloc, answer)?;
    response_text(alloc, status_of(answer), body.as_slice(), close)
}
