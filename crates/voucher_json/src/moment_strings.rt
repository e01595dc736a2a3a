//! Moments as they stand in replies.

ghost use Rattle.std.specs.Prelude.{◌≡◌, IfOk, string_bytes};
ghost use Rattle.stock_nums.specs.MomentText.{moment_text};

use std::alloc::{AllocError, Global};
use stock_nums::moment::Moment;
use stock_nums::moment_text::moment_text;

/// The text of a moment. It is ASCII, so nothing of it is lost.
pub fn moment_string(alloc: Global, moment: Moment) -> Result<String, AllocError>
    ensures { IfOk result (λ text. string_bytes text ≡ moment_text moment) }
{
    let Ok(text) = moment_text(alloc, moment) else {
        return Err(AllocError);
    };
    String::from_utf8_lossy(alloc, text.as_slice())
}
