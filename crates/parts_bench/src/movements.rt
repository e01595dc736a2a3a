//! Movements of 50 items and warehouses on four days.
ghost use Rattle.std.specs.Prelude.{◌<◌, ◌≤◌};
ghost use Rattle.stock_nums.specs.Calendar.{IsCalendarDate};
ghost use Rattle.stock_nums.specs.Quantities.{IsLineQuantity};

use crate::numbers::Numbers;
use stock_nums::cause::{Cause, Method};
use stock_nums::entry::{Entry, Key};
use stock_nums::moment::Moment;
use stock_nums::numbers::{ItemNo, Minor, Qty, RecordNo, StoreNo};
use stock_nums::place::{Place, Side};

/// How many items in warehouses there are.
pub(crate) const KEYS: u32 = 50;

// How many items of each warehouse.
const ITEMS: u32 = 10;

// How many seconds a day has.
const SECONDS: u32 = 86_400;

/// How many days there are, from 5 January 2026 on.
pub(crate) const DAYS: u32 = 4;

// The date of a day, from 0 to 3.
fn date_of(day: u32) -> u32
    ensures { IsCalendarDate result }
{
    match day {
        0 => 20_260_105,
        1 => 20_260_106,
        2 => 20_260_107,
        _ => 20_260_108,
    }
}

/// A moment at any second of so many days from one on.
pub(crate) fn any_moment(numbers: &mut Numbers, first: u32, days: u32) -> Moment
    requires some { 0 < days }
    requires first { first ≤ 4 }
    requires few { days ≤ 4 }
{
    let day = first + numbers.next(days);
    Moment {
        date: date_of(day),
        second: numbers.next(SECONDS),
    }
}

/// The first second of the first day.
pub(crate) fn first_moment() -> Moment {
    Moment {
        date: date_of(0),
        second: 0,
    }
}

/// One of the items in one of the warehouses, by its number from 0.
pub(crate) fn key_of(number: u32) -> Key
    requires { number < 50 }
{
    Key {
        item: ItemNo(number % ITEMS + 1),
        store: StoreNo(number / ITEMS + 1),
    }
}

/// Where a line of a voucher stands, without its side.
#[derive(Clone, Copy)]
pub(crate) struct Head {
    pub(crate) moment: Moment,
    pub(crate) voucher: RecordNo,
    /// The line of the voucher, from 1.
    pub(crate) line: u32,
}

/// So many units of the key that come in by a receipt, or by a transfer.
pub(crate) fn entering(head: Head, key: Key, units: u32, moved: bool) -> Entry
    requires { IsLineQuantity units }
{
    Entry {
        place: Place {
            moment: head.moment,
            voucher: head.voucher,
            line: head.line,
            side: Side::Enters,
        },
        item: key.item,
        store: key.store,
        qty: Qty(u64::from(units)),
        method: Method::Average,
        cause: if moved {
            Cause::TransferEnters
        } else {
            Cause::Receipt { amount: Minor(0) }
        },
    }
}

/// So many units of the key that leave, sold or by a transfer.
pub(crate) fn leaving(head: Head, key: Key, units: u32, moved: bool) -> Entry
    requires { IsLineQuantity units }
{
    Entry {
        place: Place {
            moment: head.moment,
            voucher: head.voucher,
            line: head.line,
            side: Side::Leaves,
        },
        item: key.item,
        store: key.store,
        qty: Qty(u64::from(units)),
        method: Method::Average,
        cause: if moved {
            Cause::TransferLeaves
        } else {
            Cause::Issue { sold: true }
        },
    }
}
