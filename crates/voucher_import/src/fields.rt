//! The fields of a row, each of its form.
ghost use Rattle.std.specs.Prelude.{◌≡◌, ◌≤◌, [], true, ⊤, is_some, IfOk, IfSome, IsUtf8};
ghost use Rattle.std.specs.Str.Parse.{digits_value};
ghost use Rattle.voucher_import.specs.Reading.{Reads};
ghost use Rattle.voucher_import.specs.RowFaults.{are_digits, is_number};

use crate::sheet::SheetField;
use std::alloc::Global;
use std::str;
use stock_nums::code::Code;
use stock_nums::memory::NoMemory;

/// The most digits of a number.
pub(crate) const MAX_DIGITS: usize = 13;

/// Why a row is no line of a voucher.
#[derive(Clone, Copy, Debug, PartialEq, Eq)]
pub(crate) enum RowFault {
    /// This is wrong with it first.
    Wrong(SheetField),
    /// Memory was wanting.
    NoMemory,
}

impl From<NoMemory> for RowFault {
    ghost use Rattle.voucher_import.specs.declared.fields.RowFault.TheVariants as fault;

    ghost from_gives = { λ _ made. made ≡ fault.NoMemory };

    fn from(_error: NoMemory) -> RowFault {
        RowFault::NoMemory
    }
}

/// The code that the text of a field spells.
pub(crate) fn read_code(alloc: Global, text: &[u8], field: SheetField) -> Result<Code, RowFault>
    ensures { Reads field (IsUtf8 text.now) (λ code. code ≡ text.now) result }
{
    match str::from_utf8(text) {
        Ok(spelled) => Ok(Code::of(alloc, spelled)?),
        Err(_) => Err(RowFault::Wrong(field)),
    }
}

/// Whether the text of a field is empty, as it has to be.
pub(crate) fn check_empty(text: &[u8], field: SheetField) -> Result<(), RowFault>
    ensures { Reads field (text.now ≡ []) (λ _. ⊤) result }
{
    if text.is_empty() {
        Ok(())
    } else {
        Err(RowFault::Wrong(field))
    }
}

/// The number from the least to the most that the text of a field tells.
pub(crate) fn read_number(
    text: &[u8],
    field: SheetField,
    least: u64,
    most: u64,
) -> Result<u64, RowFault>
    ensures outcome { Reads field (is_number least most text.now ≡ true) (λ number. number ≡ digits_value 10 text.now) result }
    ensures range { IfOk result (λ number. (least ≤ number) × (number ≤ most)) }
{
    match number_in(text) {
        Some(number) if least <= number && number <= most => Ok(number),
        _ => Err(RowFault::Wrong(field)),
    }
}

/// The number that one to thirteen digits tell.
fn number_in(text: &[u8]) -> Option<u64>
    ensures digits { is_some result ≡ are_digits text.now }
    ensures number { IfSome result (λ number. number ≡ digits_value 10 text.now) }
{
    if text.is_empty() || text.len() > MAX_DIGITS {
        return None;
    }
    let mut number = 0;
    for digit in text {
        if !digit.is_ascii_digit() {
            return None;
        }
        number = number * 10 + u64::from(digit - b'0');
    }
    Some(number)
}
