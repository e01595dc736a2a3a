//! By which names a movement is found: its line of a voucher, and its item in its warehouse.
ghost use Rattle.std.specs.Prelude.{◌≡◌};
ghost use Rattle.stock_model.specs.Enough.{entry_key};
ghost use Rattle.stock_model.specs.Values.{own_line};

use stock_nums::cause::Target;
use stock_nums::entry::{Entry, Key};

// The line of a voucher that the movement is of.
pub(crate) fn own_line(entry: &Entry) -> Target
    ensures { result ≡ own_line entry.now }
{
    Target {
        voucher: entry.place.voucher,
        line: entry.place.line,
    }
}

// The item and the warehouse of a movement.
pub(crate) fn key_of(entry: &Entry) -> Key
    ensures { result ≡ entry_key entry.now }
{
    Key {
        item: entry.item,
        store: entry.store,
    }
}
