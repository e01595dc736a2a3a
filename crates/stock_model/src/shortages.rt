//! What is told of a movement that takes more than there is.
ghost use Rattle.std.specs.Prelude.{◌≡◌};
ghost use Rattle.stock_model.specs.Enough.{entry_key};

use stock_nums::entry::{Entry, Key};
use stock_nums::numbers::{ItemNo, Qty, StoreNo};
use stock_nums::place::Place;

/// A movement that takes more than the warehouse has of the item.
#[derive(Clone, Copy, Debug, PartialEq, Eq)]
pub struct Shortage {
    pub place: Place,
    pub item: ItemNo,
    pub store: StoreNo,
    /// How many units are lacking, from 1.
    pub lacking: Qty,
}

/// The item and the warehouse of a movement.
pub fn entry_key(entry: &Entry) -> Key
    ensures { result ≡ entry_key entry.now }
{
    Key {
        item: entry.item,
        store: entry.store,
    }
}
