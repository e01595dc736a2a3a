ghost use Rattle.std.specs.Prelude.{◌≡◌};
ghost use Rattle.stock_nums.specs.Accounts.{is_store_account};

use crate::limits::{GREATEST_ACCOUNT, LEAST_ACCOUNT};

/// An item, by the number of the record that made it.
#[derive(Clone, Copy, Debug, PartialEq, Eq, PartialOrd, Ord)]
pub struct ItemNo(pub u32);

/// A warehouse, by the number of the record that made it.
#[derive(Clone, Copy, Debug, PartialEq, Eq, PartialOrd, Ord)]
pub struct StoreNo(pub u32);

/// A ledger account. A warehouse's account is from 100 to 9999.
#[derive(Clone, Copy, Debug, PartialEq, Eq, PartialOrd, Ord)]
pub struct AccountNo(pub u32);

/// An accepted record, by its place in the list of accepted records, from 1. 0 stands for none.
#[derive(Clone, Copy, Debug, PartialEq, Eq, PartialOrd, Ord)]
pub struct RecordNo(pub u32);

/// A desk, from 1 to 16. 0 stands for the input of a batch.
#[derive(Clone, Copy, Debug, PartialEq, Eq, PartialOrd, Ord)]
pub struct DeskNo(pub u32);

/// Money, in whole minor units.
#[derive(Clone, Copy, Debug, PartialEq, Eq, PartialOrd, Ord)]
pub struct Minor(pub i64);

/// A quantity, in whole smallest units of the item.
#[derive(Clone, Copy, Debug, PartialEq, Eq, PartialOrd, Ord)]
pub struct Qty(pub u64);

impl AccountNo {
    /// Whether a warehouse may have the account: from 100 to 9999.
    pub fn is_of_store(self) -> bool
        ensures { result ≡ is_store_account self.0 }
    {
        LEAST_ACCOUNT <= self.0 && self.0 <= GREATEST_ACCOUNT
    }
}
