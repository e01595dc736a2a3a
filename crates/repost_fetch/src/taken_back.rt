//! Which records later ones take back.
ghost use Rattle.std.specs.Prelude.{◌≡◌, ◌&&◌, ◌<◌, ◌≤◌, not, length, take};
ghost use Rattle.stock_model.specs.Entries.{is_live};
ghost use Rattle.repost_fetch.specs.Cancels.{says_cancel, has_cancel};

use stock_model::records::Record;
use stock_model::vouchers::What;
use stock_nums::numbers::RecordNo;
use voucher_kinds::journal::Journal;

/// Whether a record is in force in the journal of the first `first` records, where it is one of these: none of them takes it back.
/// One after these is. It takes no memory, and looks at no other record.
pub fn is_in_force(journal: &Journal, first: RecordNo, number: RecordNo) -> bool
    requires within { first.0 ≤ length journal.now }
    requires one { 0 < number.0 }
    ensures { result ≡ is_live (take first.0 journal.now) number.0 }
{
    match journal.taken_back_by(number) {
        Some(by) => by.0 > first.0,
        None => true,
    }
}

/// Whether a record was in force in the journal of the first `first` records, or comes after these, and is in force no more.
pub(crate) fn is_taken(journal: &Journal, first: RecordNo, number: RecordNo) -> bool
    requires within { first.0 ≤ length journal.now }
    requires one { 0 < number.0 }
    ensures { result ≡ (is_live (take first.0 journal.now) number.0 && not (is_live journal.now number.0)) }
{
    match journal.taken_back_by(number) {
        Some(by) => by.0 > first.0,
        None => false,
    }
}

/// Whether one of the records takes another one back. It looks at these alone.
pub(crate) fn has_cancel(records: &[Record]) -> bool
    ensures { result ≡ has_cancel records.now }
{
    records.iter().any(|record| says_cancel(&record.what))
}

// Whether what is said takes a record back.
fn says_cancel(what: &What) -> bool
    ensures { result ≡ says_cancel what.now }
{
    match what {
        What::Cancel { target: _ } => true,
        _ => false,
    }
}
