//! A spot at which what is stored is not right.
use stock_nums::entry::Worth;
use stock_nums::place::Spot;

/// What is stored at a spot, and what is due there.
#[derive(Clone, Copy, Debug, PartialEq, Eq)]
pub(crate) struct Finding {
    pub(crate) spot: Spot,
    /// None where nothing is stored there.
    pub(crate) stored: Option<Worth>,
    /// The movement's value and share over the rows that are stored before it; None where no movement has its worth there, or
    /// one that stands before this one already.
    pub(crate) due: Option<Worth>,
}
