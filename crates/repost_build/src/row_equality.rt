//! Whether rows are equal.
ghost use Rattle.std.specs.Prelude.{◌≡◌, ◌↔◌, IsTrue};

use stock_nums::cause::Cause;
use stock_nums::entry::{Entry, Row, Worth};
use stock_nums::moment::Moment;
use stock_nums::place::Place;

/// Whether both are one movement with one worth.
pub(crate) fn is_same(one: &Row, other: &Row) -> bool
    ensures { IsTrue result ↔ (one.now ≡ other.now) }
{
    is_same_worth(&one.worth, &other.worth) && is_same_entry(&one.entry, &other.entry)
}

fn is_same_worth(one: &Worth, other: &Worth) -> bool
    ensures { IsTrue result ↔ (one.now ≡ other.now) }
{
    one == other
}

#[tactic(auto, using(crate::proofs::SameRows::entry_same))]
fn is_same_entry(one: &Entry, other: &Entry) -> bool
    ensures { IsTrue result ↔ (one.now ≡ other.now) }
{
    is_same_place(&one.place, &other.place)
        && one.item == other.item
        && one.store == other.store
        && one.qty == other.qty
        && one.method == other.method
        && is_same_cause(&one.cause, &other.cause)
}

#[tactic(auto, using(crate::proofs::SameRows::place_same))]
fn is_same_place(one: &Place, other: &Place) -> bool
    ensures { IsTrue result ↔ (one.now ≡ other.now) }
{
    is_same_moment(one.moment, other.moment)
        && one.voucher == other.voucher
        && one.line == other.line
        && one.side == other.side
}

#[tactic(auto, using(crate::proofs::SameRows::moment_same))]
fn is_same_moment(one: Moment, other: Moment) -> bool
    ensures { IsTrue result ↔ (one ≡ other) }
{
    one == other
}

fn is_same_cause(one: &Cause, other: &Cause) -> bool
    ensures { IsTrue result ↔ (one.now ≡ other.now) }
{
    one == other
}
