//! The lines that tell of a sheet: what is wrong with it, how a count differs, and which of its lines differs too much.
ghost use Rattle.std.specs.Prelude.{◌≡◌, ◌≢◌, ◌++◌, ◌∷◌, List, OnOk, IfOk};
ghost use Rattle.std.specs.Fmt.{signed_decimal};
ghost use Rattle.std.specs.List.{flat_map};
ghost use Rattle.voucher_import.specs.declared.sheet.SheetFault.{SheetFault};
ghost use Rattle.sheet_io.specs.Lines.{fault_line, field_name, diffs_line, numbers_text, further_number, wide_line};

use itoa::{Buffer, Integer};
use std::alloc::Global;
use stock_nums::memory::NoMemory;
use voucher_import::sheet::{SheetFault, SheetField};

/// The line that tells what is wrong with a sheet.
///
/// # Errors
///
/// `NoMemory`: memory was wanting, now or where the sheet was read.
pub fn fault_line(alloc: Global, fault: SheetFault) -> Result<Vec<u8>, NoMemory>
    ensures text { IfOk result (λ text. text.items ≡ fault_line fault) }
    ensures read { OnOk result (fault ≢ SheetFault.NoMemory) }
{
    let mut text = Vec::new(alloc);
    match fault {
        SheetFault::BadHead => push_text(
            &mut text,
            "{\"fault\":\"bad-head\",\"status\":\"bad\"}\n",
        )?,
        SheetFault::BadRow { row, field } => {
            push_text(&mut text, "{\"fault\":\"bad-row\",\"field\":\"")?;
            push_text(&mut text, field_name(field))?;
            push_number(&mut text, "\",\"row\":", row)?;
            push_text(&mut text, ",\"status\":\"bad\"}\n")?;
        }
        SheetFault::NoMemory => return Err(NoMemory),
    }
    Ok(text)
}

/// Adds the line that tells the differences of a count, in the order of its lines.
pub fn push_diffs(text: &mut Vec<u8>, diffs: &[i64]) -> Result<(), NoMemory>
    ensures { OnOk result (text.new.items ≡ text.old.items ++ diffs_line diffs.now) }
{
    push_text(text, "{\"diffs\":[")?;
    push_numbers(text, diffs)?;
    push_text(text, "],\"status\":\"counted\"}\n")
}

// Adds the numbers, parted by commas.
fn push_numbers(text: &mut Vec<u8>, numbers: &[i64]) -> Result<(), NoMemory>
    ensures { OnOk result (text.new.items ≡ text.old.items ++ numbers_text numbers.now) }
{
    let Some((first, rest)) = numbers.split_first() else {
        return Ok(());
    };
    push_difference(text, "", first)?;
    push_further(text, rest)
}

// Adds each of the numbers after a comma.
fn push_further(text: &mut Vec<u8>, numbers: &[i64]) -> Result<(), NoMemory>
    ensures { OnOk result (text.new.items ≡ text.old.items ++ flat_map further_number numbers.now) }
{
    for number in numbers {
        push_difference(text, ",", number)?;
    }
    Ok(())
}

// Adds what stands before a difference, and the difference.
fn push_difference(text: &mut Vec<u8>, before: &str, number: &i64) -> Result<(), NoMemory>
    ensures { OnOk result (text.new.items ≡ (text.old.items ++ before.now) ++ signed_decimal number.now) }
{
    push_number(text, before, *number)
}

/// Adds the line that tells which line of a count, from 1, differs by more than a voucher can move.
pub fn push_wide(text: &mut Vec<u8>, line: u32) -> Result<(), NoMemory>
    ensures { OnOk result (text.new.items ≡ text.old.items ++ wide_line line) }
{
    push_number(text, "{\"fault\":\"wide\",\"line\":", line)?;
    push_text(text, ",\"status\":\"refused\"}\n")
}

fn field_name(field: SheetField) -> &'static str
    ensures { result.now ≡ field_name field }
{
    match field {
        SheetField::Length => "length",
        SheetField::Group => "group",
        SheetField::Do => "do",
        SheetField::At => "at",
        SheetField::Item => "item",
        SheetField::Store => "store",
        SheetField::To => "to",
        SheetField::Qty => "qty",
        SheetField::Amount => "amount",
        SheetField::Repeat => "repeat",
        SheetField::Many => "many",
    }
}

fn push_text(text: &mut Vec<u8>, more: &str) -> Result<(), NoMemory>
    ensures { OnOk result (text.new.items ≡ text.old.items ++ more.now) }
{
    text.extend_from_slice(more.as_bytes())?;
    Ok(())
}

// Adds what stands before a number, and the number.
fn push_number<N: Integer>(text: &mut Vec<u8>, before: &str, number: N) -> Result<(), NoMemory>
    ensures { OnOk result (text.new.items ≡ (text.old.items ++ before.now) ++ N.text number) }
{
    push_text(text, before)?;
    let mut digits = Buffer::new();
    push_text(text, digits.format(number))
}
