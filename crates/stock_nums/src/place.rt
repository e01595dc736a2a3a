ghost use Rattle.std.specs.Prelude.{◌≡◌, ◌⊎◌, IsTrue, false};
ghost use Rattle.stock_nums.specs.Places.{is_before};
ghost use Rattle.stock_nums.specs.declared.place.Place.{Place};

use crate::moment::Moment;
use crate::numbers::RecordNo;

/// The side of a movement. In the order of places what leaves comes before what enters.
#[derive(Clone, Copy, Debug, PartialEq, Eq, PartialOrd, Ord)]
pub enum Side {
    Leaves,
    Enters,
}

/// Where a movement stands in posting order: by date, second, record, line and side.
#[derive(Clone, Copy, Debug, PartialEq, Eq, PartialOrd, Ord)]
pub struct Place {
    pub moment: Moment,
    pub voucher: RecordNo,
    /// The line of the voucher, from 1.
    pub line: u32,
    pub side: Side,
}

/// A place without its moment.
#[derive(Clone, Copy, Debug, PartialEq, Eq, PartialOrd, Ord)]
pub struct Spot {
    pub voucher: RecordNo,
    /// The line of the voucher, from 1.
    pub line: u32,
    pub side: Side,
}

impl Place {
    /// Whether this place comes before the other in posting order.
    pub fn is_before(&self, other: &Place) -> bool
        ensures { result ≡ is_before self.now other.now }
    {
        self < other
    }
}

/// Posting order is a strict total order: of two places exactly one comes before the other, or they are one place.
pub fn places_are_in_total_order()
    ensures irreflexive { (p : Place) → is_before p p ≡ false }
    ensures asymmetric { (p q : Place) → IsTrue (is_before p q) → is_before q p ≡ false }
    ensures transitive { (p q r : Place) →
        IsTrue (is_before p q) → IsTrue (is_before q r) → IsTrue (is_before p r) }
    ensures total { (p q : Place) →
        IsTrue (is_before p q) ⊎ IsTrue (is_before q p) ⊎ (p ≡ q) }
{}
