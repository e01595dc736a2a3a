//! The moments of records, by their numbers less 1.
ghost use Rattle.std.specs.Prelude.{◌≡◌, ◌-◌, ◌<◌, ◌≤◌, ℕ, length, max, slice_get, vec_len, vec_capacity, OnOk};
ghost use Rattle.stock_nums.specs.declared.limits.TheConstants.{MAX_RECORDS};
ghost use Rattle.repost_index.specs.Moments.{IsMomentPut};

use stock_nums::limits::MAX_RECORDS;
use stock_nums::memory::NoMemory;
use stock_nums::moment::Moment;
use stock_nums::numbers::RecordNo;

/// Makes room for the moments of all records that there may be, and of no more. The moments stay as they are, and no room is
/// lost.
pub(crate) fn reserve(moments: &mut Vec<Moment>) -> Result<(), NoMemory>
    ensures room { OnOk result (MAX_RECORDS ≤ vec_capacity moments.new) }
    ensures unchanged { moments.new.items ≡ moments.old.items }
    ensures room_stays { vec_capacity moments.old ≤ vec_capacity moments.new }
    ensures no_more { vec_capacity moments.new ≤ max (vec_capacity moments.old) MAX_RECORDS }
{
    Ok(moments.reserve_exact(MAX_RECORDS.saturating_sub(moments.len()))?)
}

/// Keeps the moment of a record. It takes no memory.
pub(crate) fn keep(moments: &mut Vec<Moment>, voucher: RecordNo, moment: Moment)
    requires numbered { 0 < voucher.0 }
    requires room { voucher.0 ≤ vec_capacity moments.old }
    ensures put { IsMomentPut moments.old.items moments.new.items (voucher.0 - 1) moment }
    ensures room { vec_capacity moments.new ≡ vec_capacity moments.old }
{
    let count = voucher.0 as usize;
    fill_up(moments, count, moment);
    moments[count - 1] = moment;
}

// Fills the list up to so many moments with this one.
fn fill_up(moments: &mut Vec<Moment>, count: usize, moment: Moment)
    requires room { count ≤ vec_capacity moments.old }
    ensures full { count ≤ vec_len moments.new }
    ensures front { (i : ℕ) → i < length moments.old.items
        → slice_get moments.new.items i ≡ slice_get moments.old.items i }
    ensures room { vec_capacity moments.new ≡ vec_capacity moments.old }
{
    while moments.len() < count {
        moments.push_reserved(moment);
    }
}
