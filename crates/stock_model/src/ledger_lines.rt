//! The lines of the general ledger that movements make, and the accounts that they stand on.

use stock_nums::numbers::{AccountNo, Minor};

/// The account of goods that were received, and whose bill has not come yet.
pub const RECEIVED_NOT_BILLED: u32 = 1;

/// The account of the cost of goods sold (IAS 2.34).
pub const COST_OF_GOODS_SOLD: u32 = 2;

/// The account of goods that were used, and of what a return to suppliers costs more or less than its price.
pub const STOCK_ADJUSTMENT: u32 = 3;

/// The account of landed charges, which receipts take into their cost (IAS 2.10).
pub const LANDED_CHARGES: u32 = 4;

/// The largest balance of an account in size, in minor units.
pub const MAX_BALANCE: u64 = 1_000_000_000_000_000_000;

/// A line of the general ledger: an amount on one side of an account, in minor units. Exactly one of the amounts
/// is above 0.
#[derive(Clone, Copy, Debug, PartialEq, Eq)]
pub struct GlLine {
    pub account: AccountNo,
    pub debit: Minor,
    pub credit: Minor,
}

/// An account with its debits less its credits, in minor units.
#[derive(Clone, Copy, Debug, PartialEq, Eq)]
pub struct Balance {
    pub account: AccountNo,
    pub balance: Minor,
}
