//! From which record on lines of each one are named, noted record by record.
ghost use Rattle.std.specs.Prelude.{◌≡◌, ◌<◌, ◌≤◌, ℕ, true, false, length, slice_get};
ghost use Rattle.std.specs.Option.{option_map_or};
ghost use Rattle.stock_model.specs.Cancelling.{is_line_of, names_line_of};
ghost use Rattle.stock_model.specs.VoucherLines.{targets_of};
ghost use Rattle.voucher_kinds.specs.Journals.{IsFrom, KeepsFirst, taker};

use stock_model::line_views::{target_at, target_count};
use stock_model::vouchers::What;
use stock_nums::numbers::RecordNo;

/// Notes, of each record of which the voucher with this number names a line, that it is named from this number on or earlier.
pub(crate) fn note(namers: &mut [Option<RecordNo>], what: &What, by: RecordNo)
    ensures long { length namers.new ≡ length namers.old }
    ensures kept { KeepsFirst namers.old namers.new }
    ensures named { (n : ℕ) → 0 < n → n ≤ length namers.old → names_line_of n what.now ≡ true → IsFrom (taker namers.new n) by.0 }
{
    for index in 0..target_count(what) {
        note_at(namers, what, index, by);
    }
}

// Notes it of the record of which the target at this index is a line, if there is one.
fn note_at(namers: &mut [Option<RecordNo>], what: &What, index: usize, by: RecordNo)
    ensures long { length namers.new ≡ length namers.old }
    ensures kept { KeepsFirst namers.old namers.new }
    ensures named { (n : ℕ) → 0 < n → n ≤ length namers.old → option_map_or (is_line_of n) (slice_get (targets_of what.now) index) false ≡ true
        → IsFrom (taker namers.new n) by.0 }
{
    if let Some(named) = target_at(what, index) {
        note_one(namers, named.target.voucher, by);
    }
}

// Notes it of the record with this number, if there is one.
fn note_one(namers: &mut [Option<RecordNo>], number: RecordNo, by: RecordNo)
    ensures long { length namers.new ≡ length namers.old }
    ensures kept { KeepsFirst namers.old namers.new }
    ensures named { 0 < number.0 → number.0 ≤ length namers.old → IsFrom (taker namers.new number.0) by.0 }
{
    if number.0 == 0 || number.0 as usize > namers.len() {
        return;
    }
    let index = number.0 as usize - 1;
    namers[index] = Some(earlier(namers[index], by));
}

// The earlier of what is noted and this.
fn earlier(noted: Option<RecordNo>, by: RecordNo) -> RecordNo
    ensures kept { (k : ℕ) → IsFrom noted k → result.0 ≤ k }
    ensures own { result.0 ≤ by.0 }
{
    match noted {
        Some(first) if first.0 <= by.0 => first,
        _ => by,
    }
}
