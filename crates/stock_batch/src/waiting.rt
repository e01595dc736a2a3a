//! The answers that wait to be written.
ghost use Rattle.std.specs.Prelude.{◌≡◌, ◌++◌, OnOk};
ghost use Rattle.book_answers.specs.Answers.{HasText};
ghost use Rattle.stock_batch.specs.Answers.{answer_line};

use book_answers::texts::answer_text;
use std::alloc::Global;
use stock_model::answers::Answer;
use stock_nums::memory::NoMemory;

/// Adds the text of an answer, and a line feed.
///
/// # Errors
///
/// `NoMemory`: a front of the text may have been added.
pub fn append_answer(alloc: Global, waiting: &mut Vec<u8>, answer: &Answer) -> Result<(), NoMemory>
    requires { HasText answer.now }
    ensures { OnOk result (waiting.new.items ≡ waiting.old.items ++ answer_line answer.now) }
{
    waiting.extend_from_slice(answer_text(alloc, answer)?.as_slice())?;
    waiting.push(b'\n')?;
    Ok(())
}
