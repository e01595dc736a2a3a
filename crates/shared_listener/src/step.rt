//! What is noted of a listener that desks share. No value of these types takes memory but its kind: they are for contracts.
use std::snapshot::Snapshot;

/// A listener as it was before desks shared it, the number of desks that began, and how many peers they wanted.
#[derive(Drop)]
pub struct Opening<L> {
    pub listener: Snapshot<L>,
    pub desks: u32,
    pub wanted: u32,
}

/// What a desk did at the listener.
#[derive(Drop)]
pub enum Step<L, P> {
    /// Desks share the listener from now on.
    Opened(Opening<L>),
    /// This peer came to the desk.
    Came(Snapshot<P>),
    /// The desk handed this peer back.
    HungUp(Snapshot<P>),
    /// The desk was told that no further peer comes.
    Ended,
}
