//! The parts of the texts of rows: numbers and words, and what stands before them.
ghost use Rattle.std.specs.Prelude.{◌++◌, OnOk};
ghost use Rattle.valuation_report.specs.Adding.{Adds};

use itoa::{Buffer, Integer};
use stock_nums::memory::NoMemory;

/// Adds these bytes.
pub(crate) fn push_bytes(text: &mut Vec<u8>, bytes: &[u8]) -> Result<(), NoMemory>
    ensures { OnOk result (Adds text.old.items text.new.items bytes.now) }
{
    text.extend_from_slice(bytes)?;
    Ok(())
}

/// Adds the bytes of a word.
pub(crate) fn push_text(text: &mut Vec<u8>, word: &str) -> Result<(), NoMemory>
    ensures { OnOk result (Adds text.old.items text.new.items word.now) }
{
    push_bytes(text, word.as_bytes())
}

/// Adds the bytes that stand before a word, and the word.
pub(crate) fn push_word(text: &mut Vec<u8>, before: &[u8], word: &str) -> Result<(), NoMemory>
    ensures { OnOk result (Adds text.old.items text.new.items (before.now ++ word.now)) }
{
    push_bytes(text, before)?;
    push_text(text, word)
}

/// Adds the bytes that stand before a number, and the number.
pub(crate) fn push_number<N: Integer>(
    text: &mut Vec<u8>,
    before: &[u8],
    number: N,
) -> Result<(), NoMemory>
    ensures { OnOk result (Adds text.old.items text.new.items (before.now ++ N.text number)) }
{
    let mut digits = Buffer::new();
    push_word(text, before, digits.format(number))
}
