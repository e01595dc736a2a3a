//! The limits of the ledger, each named once: definitions and code cite them.

/// The most bytes of a code.
pub const MAX_CODE: usize = 24;

/// The most units of a line, in smallest units of the item. The least is 1.
pub const MAX_QUANTITY: u64 = 1_000_000_000;

/// The largest amount of a line, in minor units. The least is 0.
pub const MAX_AMOUNT: u64 = 1_000_000_000_000;

/// The most lines of a voucher. The least is 1.
pub const MAX_LINES: usize = 100;

/// The least ledger account of a warehouse.
pub const LEAST_ACCOUNT: u32 = 100;

/// The greatest ledger account of a warehouse.
pub const GREATEST_ACCOUNT: u32 = 9_999;

/// The largest number that a record may say for an account. The book refuses what no warehouse may have.
pub const MAX_SAID_ACCOUNT: u64 = 1_000_000_000;

/// The greatest number of a desk. 0 stands for the input of a batch.
pub const MAX_DESK: u64 = 16;

/// The most records of a journal.
pub const MAX_RECORDS: usize = 50_000;

/// The most movements of a journal.
pub const MAX_ENTRIES: usize = 200_000;

/// The largest value of a movement and of a stock, in minor units.
pub const MAX_VALUE: u64 = 300_000_000_000_000_000;

/// The most units that are held of an item in a warehouse, in smallest units of the item.
pub const MAX_UNITS: u64 = 1_000_000_000_000_000_000;

/// The most turns of a worker that one line may ask for. The least is 1.
pub const MAX_TURNS: u64 = 1_000_000;
