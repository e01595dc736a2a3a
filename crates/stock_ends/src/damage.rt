//! What is wrong with a ledger that can't be opened, and the line that notes it.
ghost use Rattle.std.specs.Prelude.{◌≡◌, ◌++◌, IfOk, OnOk};
ghost use Rattle.stock_ends.specs.Damages.{damage_note, side_text};

use itoa::{Buffer, Integer};
use std::alloc::Global;
use stock_nums::memory::NoMemory;
use stock_nums::place::{Side, Spot};

/// What is wrong with the tables of a ledger: the first of these.
#[derive(Clone, Copy, Debug, PartialEq, Eq)]
pub enum Damage {
    /// The version is not the one that is written, or the number covered is not from 0 to the number of records.
    Head,
    /// The first stored record that has another number than its place, is none as it would be written, or has a fault there.
    Record { number: u32 },
    /// The first spot, by record, line and side, at which the stored worth is not the replayed one.
    Worth { spot: Spot },
}

/// The line that notes a damage.
///
/// # Errors
///
/// `NoMemory`: memory was wanting.
pub(crate) fn damage_note(alloc: Global, damage: &Damage) -> Result<Vec<u8>, NoMemory>
    ensures { IfOk result (λ text. text.items ≡ damage_note damage.now) }
{
    let mut text = Vec::new(alloc);
    match damage {
        Damage::Head => push_text(&mut text, "stockd: stored head\n")?,
        Damage::Record { number } => {
            push_number(&mut text, "stockd: stored record ", *number)?;
            push_text(&mut text, " not readable\n")?;
        }
        Damage::Worth { spot } => {
            push_number(&mut text, "stockd: stored row ", spot.voucher.0)?;
            push_number(&mut text, ".", spot.line)?;
            push_text(&mut text, side_text(spot.side))?;
        }
    }
    Ok(text)
}

fn push_text(text: &mut Vec<u8>, more: &str) -> Result<(), NoMemory>
    ensures { OnOk result (text.new.items ≡ text.old.items ++ more.now) }
{
    text.extend_from_slice(more.as_bytes())?;
    Ok(())
}

// Adds what stands before a number, and the number.
fn push_number<N: Integer>(text: &mut Vec<u8>, before: &str, number: N) -> Result<(), NoMemory>
    ensures { OnOk result (text.new.items ≡ (text.old.items ++ before.now) ++ N.text number) }
{
    push_text(text, before)?;
    let mut digits = Buffer::new();
    push_text(text, digits.format(number))
}

fn side_text(side: Side) -> &'static str
    ensures { result.now ≡ side_text side }
{
    match side {
        Side::Leaves => " leaves differs\n",
        Side::Enters => " enters differs\n",
    }
}
