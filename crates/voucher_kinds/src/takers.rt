//! Which record of a journal takes each one back, noted record by record.
ghost use Rattle.std.specs.Prelude.{◌≡◌};
ghost use Rattle.voucher_kinds.specs.Journals.{HasNote, noted_with, taker};

use stock_model::vouchers::What;
use stock_nums::numbers::RecordNo;

/// The record that is noted to take back the one with this number, from 1. None of one that there is not.
pub(crate) fn taker(takers: &[Option<RecordNo>], number: RecordNo) -> Option<RecordNo>
    ensures { result ≡ taker takers.now number.0 }
{
    if number.0 == 0 {
        return None;
    }
    match takers.get(number.0 as usize - 1) {
        Some(by) => *by,
        None => None,
    }
}

/// Notes of the record that the voucher takes back, if it takes one back, which record does so.
pub(crate) fn note(takers: &mut [Option<RecordNo>], what: &What, by: Option<RecordNo>)
    requires { HasNote takers.old what.now }
    ensures { takers.new ≡ noted_with takers.old what.now by }
{
    if let What::Cancel { target } = what {
        takers[target.0 as usize - 1] = by;
    }
}
