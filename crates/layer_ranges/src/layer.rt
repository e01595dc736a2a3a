//! The units of one movement by their numbers.
use stock_nums::numbers::Qty;
use stock_nums::place::Place;

/// The units of one movement, among those that entered an item's warehouse or those that left it, numbered from 0 in posting
/// order.
#[derive(Clone, Copy, Debug, PartialEq, Eq)]
pub struct Layer {
    /// Where the movement stands.
    pub place: Place,
    /// How many units came before it: the number of its first unit.
    pub begin: Qty,
    /// How many units it moved, from 1.
    pub qty: Qty,
}
