//! Why a record is not accepted.

use stock_nums::moment::Moment;
use stock_nums::numbers::{ItemNo, Qty, RecordNo, StoreNo};
use stock_nums::place::Place;

/// Why a record was not accepted, in the order in which faults are looked for. A fault of a line names
/// the first line that has it, from 1.
#[derive(Clone, Copy, Debug, PartialEq, Eq)]
pub enum PostFault {
    /// The new item's (warehouse's) code is that of an accepted item (warehouse).
    CodeTaken,
    /// The new code is not 1 to 24 of `A-Z a-z 0-9 . _ -`.
    CodeShape,
    /// The new warehouse's account is not from 100 to 9999.
    AccountRange,
    /// The line's item code is of no accepted item.
    UnknownItem {
        line: u32,
    },
    /// The line's warehouse code is of no accepted warehouse.
    UnknownStore {
        line: u32,
    },
    /// The line moves goods within one warehouse.
    SameStore {
        line: u32,
    },
    /// The line's target is no line of an accepted voucher of the right kind that is in force.
    UnknownTarget {
        line: u32,
    },
    /// What is to be cancelled is no accepted receipt, issue, transfer, return or landed voucher, or isn't in force any more.
    NotLive {
        target: RecordNo,
    },
    /// A return or a landed voucher that is in force names a line of what is to be cancelled. `by` is the first one.
    Linked {
        by: RecordNo,
    },
    /// The record's moment is before that of the line's target.
    LinkLater {
        line: u32,
    },
    /// An earlier line has the same target.
    RepeatedTarget {
        line: u32,
    },
    /// More is asked to be returned than is left of the target.
    OverReturn {
        line: u32,
        asked: Qty,
        left: Qty,
    },
    /// The weights of all targets sum to 0.
    NoBasis,
    /// The past is closed up to this moment, which is closed too, and the record moves goods at a moment that is
    /// closed, or is a charge for goods that were received at one.
    Frozen {
        until: Moment,
    },
    /// 50,000 records are held, or the movements held and the new ones are more than 200,000. The numbers
    /// are those held.
    Full {
        records: u32,
        entries: u32,
    },
    /// With the record's movements there is a first movement in posting order, at this place, that takes
    /// more of the item than the warehouse has. It may be one of an older record. `lacking` is how many
    /// units too many have left with it, from 1.
    Short {
        place: Place,
        item: ItemNo,
        store: StoreNo,
        lacking: Qty,
    },
    /// What keeps the records failed.
    KeeperFailed,
    /// Memory was wanting. This can come at any time.
    NoMemory,
}
