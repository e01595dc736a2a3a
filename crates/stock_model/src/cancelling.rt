//! Which records are in force, and which voucher a cancel may take back.
ghost use Rattle.std.specs.Prelude.{◌≡◌, false, slice_get};
ghost use Rattle.std.specs.Option.{option_map_or};
ghost use Rattle.stock_model.specs.Cancelling.{is_line_of, is_voucher, is_voucher_in_force, names_line_of};
ghost use Rattle.stock_model.specs.Entries.{cancels, is_live};
ghost use Rattle.stock_model.specs.Faults.{linked, not_live};
ghost use Rattle.stock_model.specs.VoucherLines.{targets_of};

use crate::faults::PostFault;
use crate::line_views::{target_at, target_count};
use crate::names::Returns;
use crate::records::Record;
use crate::vouchers::What;
use stock_nums::numbers::RecordNo;

/// Whether the record with this number, from 1, is in force among these: no later one takes it back. It goes over all later
/// ones.
pub fn is_live(records: &[Record], number: RecordNo) -> bool
    ensures { result ≡ is_live records.now number.0 }
{
    for index in number.0 as usize..records.len() {
        if cancels(number, &records[index].what) {
            return false;
        }
    }
    true
}

/// Whether what is said takes the record with this number back.
#[tactic(auto, unfolding(crate::specs::Entries::cancels))]
pub fn cancels(number: RecordNo, what: &What) -> bool
    ensures { result ≡ cancels number.0 what.now }
{
    match what {
        What::Cancel { target } => *target == number,
        _ => false,
    }
}

/// Whether what is said moves goods or charges for them, so that it may be cancelled.
pub fn is_voucher(what: &What) -> bool
    ensures { result ≡ is_voucher what.now }
{
    match what {
        What::Item { code: _, method: _ } => false,
        What::Store {
            code: _,
            account: _,
        } => false,
        What::Freeze { until: _ } => false,
        What::Cancel { target: _ } => false,
        _ => true,
    }
}

/// The fault of a cancel of what is no voucher in force.
pub(crate) fn not_live<N: Returns>(names: &N, what: &What) -> Option<PostFault>
    ensures { result ≡ not_live (N.journal names.now) what.now }
{
    match what {
        What::Cancel { target } => {
            if is_voucher_in_force(names, *target) {
                None
            } else {
                Some(PostFault::NotLive { target: *target })
            }
        }
        _ => None,
    }
}

/// The fault of a cancel of a voucher of which a line is named by another one in force.
pub(crate) fn linked<N: Returns>(names: &N, what: &What) -> Option<PostFault>
    ensures { result ≡ linked (N.journal names.now) what.now }
{
    match what {
        What::Cancel { target } => match names.first_link(*target) {
            Some(by) => Some(PostFault::Linked { by }),
            None => None,
        },
        _ => None,
    }
}

// Whether the record with this number is a voucher that is in force.
fn is_voucher_in_force<N: Returns>(names: &N, number: RecordNo) -> bool
    ensures { result ≡ is_voucher_in_force (N.journal names.now) number.0 }
{
    match names.record_at(number) {
        Some(record) => is_voucher(&record.what) && names.is_live(number),
        None => false,
    }
}

/// Whether what is said, a return or a landed voucher, names a line of the record with this number.
pub fn names_line_of(number: RecordNo, what: &What) -> bool
    ensures { result ≡ names_line_of number.0 what.now }
{
    for index in 0..target_count(what) {
        if is_line_of_at(number, what, index) {
            return true;
        }
    }
    false
}

// Whether the target at this index, from 0, is a line of the record with this number.
fn is_line_of_at(number: RecordNo, what: &What, index: usize) -> bool
    ensures { result ≡ option_map_or (is_line_of number.0) (slice_get (targets_of what.now) index) false }
{
    match target_at(what, index) {
        Some(named) => named.target.voucher == number,
        None => false,
    }
}
