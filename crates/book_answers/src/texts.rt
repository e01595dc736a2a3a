//! The texts of answers.
ghost use Rattle.std.specs.Prelude.{◌≡◌, IfOk};
ghost use Rattle.book_answers.specs.Answers.{answer_text, HasText};

use std::alloc::Global;
use stock_model::answers::Answer;
use stock_nums::lines::Lines;
use stock_nums::memory::NoMemory;
use valuation_report::report_text::report_text;
use voucher_json::replying::reply_text;

/// The text of an answer, with no line feed. The only error is want of memory.
pub fn answer_text(alloc: Global, answer: &Answer) -> Result<Lines<u8>, NoMemory>
    requires { HasText answer.now }
    ensures { IfOk result (λ text. text ≡ answer_text answer.now) }
{
    match answer {
        Answer::Told { reply, heads } => reply_text(alloc, reply, heads.as_slice()),
        Answer::Shown { query, selected } => report_text(alloc, selected, query),
    }
}
