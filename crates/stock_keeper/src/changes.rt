//! What a publication changes.

use stock_nums::entry::Worth;
use stock_nums::lines::Lines;
use stock_nums::place::Spot;

/// What the movement at a spot is worth.
#[derive(Clone, Copy, Debug, PartialEq, Eq)]
pub struct SpotWorth {
    pub spot: Spot,
    pub worth: Worth,
}

/// What a publication puts in and takes out.
#[derive(Drop)]
pub struct Changes {
    /// New worths, and those that stand in place of others, in any order. Of two at one spot the later counts.
    pub rows: Lines<SpotWorth>,
    /// The spots at which nothing stands afterwards, in any order.
    pub gone: Lines<Spot>,
}
