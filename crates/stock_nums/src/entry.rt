ghost use Rattle.std.specs.Prelude.{IsTrue};
ghost use Rattle.stock_nums.specs.Quantities.{IsLineQuantity};
ghost use Rattle.stock_nums.specs.Causes.{has_amounts_in_range, has_side};

use crate::cause::{Cause, Method};
use crate::numbers::{ItemNo, Minor, Qty, StoreNo};
use crate::place::Place;

/// One item in one warehouse.
#[derive(Clone, Copy, Debug, PartialEq, Eq, PartialOrd, Ord)]
pub struct Key {
    pub item: ItemNo,
    pub store: StoreNo,
}

/// A movement of one item into or out of one warehouse.
#[derive(Clone, Copy, Debug, PartialEq, Eq)]
pub struct Entry {
    pub place: Place,
    pub item: ItemNo,
    pub store: StoreNo,
    /// From 1 to 10^9.
    pub qty: Qty,
    pub method: Method,
    pub cause: Cause,
    ghost quantity: { IsLineQuantity qty.0 },
    ghost amounts: { IsTrue (has_amounts_in_range cause) },
    ghost sides: { IsTrue (has_side cause place.side) },
}

/// What a movement is worth.
#[derive(Clone, Copy, Debug, PartialEq, Eq)]
pub struct Worth {
    pub value: Minor,
    /// The landed charges within a receipt's value, or the price within a supplier return's.
    pub share: Minor,
}

/// A movement and its worth.
#[derive(Clone, Copy, Debug, PartialEq, Eq)]
pub struct Row {
    pub entry: Entry,
    pub worth: Worth,
}
