//! The rows of the sheets.

use stock_nums::code::Code;
use stock_nums::moment::Moment;
use stock_nums::numbers::{AccountNo, Minor, Qty, RecordNo};
use stock_nums::place::Side;

/// A row of the balance sheet: what one warehouse holds of one item.
#[derive(Drop)]
pub struct BalanceRow {
    pub item: Code,
    pub store: Code,
    pub qty: Qty,
    pub value: Minor,
}

/// A row of the layers sheet: the units that are left of what entered a warehouse together. An item that is
/// costed by the moving average has one row for all its units, with record 0 and line 0.
#[derive(Drop)]
pub struct LayerRow {
    pub item: Code,
    pub store: Code,
    /// The record by which the units entered.
    pub voucher: RecordNo,
    /// The line of that record, from 1.
    pub line: u32,
    /// The units that are left, from 1.
    pub qty: Qty,
    /// What they are worth, in minor units.
    pub value: Minor,
}

/// A row of the ledger sheet: a movement, and what its warehouse holds of its item after it.
#[derive(Drop)]
pub struct LedgerRow {
    pub item: Code,
    pub store: Code,
    pub at: Moment,
    pub voucher: RecordNo,
    /// The line of that record, from 1.
    pub line: u32,
    pub side: Side,
    /// The units that move.
    pub qty: Qty,
    /// What they are worth, in minor units.
    pub value: Minor,
    /// The units that are held after the movement.
    pub stock: Qty,
    /// What these are worth, in minor units.
    pub worth: Minor,
}

/// A row of the voucher sheet: a line of the general ledger that a line of the record makes.
#[derive(Clone, Copy, Debug, PartialEq, Eq)]
pub struct VoucherRow {
    /// The line of the record, from 1.
    pub line: u32,
    pub account: AccountNo,
    pub debit: Minor,
    pub credit: Minor,
}
