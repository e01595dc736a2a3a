//! How a movement changes what is held.
ghost use Rattle.std.specs.Prelude.{◌≡◌, pos};
ghost use Rattle.stock_model.specs.Enough.{entry_key};
ghost use Rattle.key_order.specs.Units.{IsSignedQuantity};

use stock_nums::entry::{Entry, Key};
use stock_nums::numbers::Qty;
use stock_nums::place::{Place, Side};

/// How a movement changes what is held of an item in a warehouse: by so many units at its place.
#[derive(Clone, Copy, Debug, PartialEq, Eq)]
pub struct Change {
    pub key: Key,
    pub place: Place,
    /// How many more are held with it, from 1 to 10^9, or how many fewer, from -1 to -10^9.
    pub units: i32,
    ghost quantity: { IsSignedQuantity units },
}

/// Where units are lacking of an item in a warehouse.
#[derive(Clone, Copy, Debug, PartialEq, Eq)]
pub struct Lack {
    pub place: Place,
    /// How many units are lacking with the change that stands there, from 1.
    pub lacking: Qty,
}

impl Change {
    ghost use Rattle.key_order.specs.Changes.{change_of, leaving_change};

    /// What the movement changes: more are held with what enters, and fewer with what leaves.
    pub fn of(entry: &Entry) -> Change
        ensures { result ≡ change_of entry.now }
    {
        match entry.place.side {
            Side::Enters => Change {
                key: key_of(entry),
                place: entry.place,
                units: quantity_of(entry),
            },
            Side::Leaves => Change::leaving(entry),
        }
    }

    /// What the movement would change if its units left, whatever its side is.
    pub fn leaving(entry: &Entry) -> Change
        ensures { result ≡ leaving_change entry.now }
    {
        Change {
            key: key_of(entry),
            place: entry.place,
            units: -quantity_of(entry),
        }
    }
}

// The item and the warehouse of a movement.
fn key_of(entry: &Entry) -> Key
    ensures { result ≡ entry_key entry.now }
{
    Key {
        item: entry.item,
        store: entry.store,
    }
}

// How many units move.
fn quantity_of(entry: &Entry) -> i32
    ensures { result ≡ pos entry.now.qty.0 }
{
    entry.qty.0 as i32
}
