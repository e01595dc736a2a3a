//! What a pass knows. No value of these types is made: they are for contracts alone.
use std::collections::LinkedList;

/// What is noted of the value that a lock is made with: which of its calls fail, where that is told, how many there were, and how
/// long its history was.
pub struct Start {
    pub plan: Option<LinkedList<u64>>,
    pub calls: u64,
    pub events: u64,
}

/// What a pass knows of the value under the lock, and what it did through the lock.
pub struct View<E> {
    /// Of how many passes it has what they made: its own and those that were joined into it. It is 0 once
    /// the pass was joined into another.
    pub passes: u64,
    /// 0 for the pass that the lock was made with. The passes that were split off are numbered from 1.
    pub number: u32,
    /// The history and the count of faults that the lock was made with.
    pub first: LinkedList<(u32, E)>,
    pub first_faults: u64,
    /// What was noted of that value.
    pub start: Start,
    /// The history and the count of faults that the pass has seen.
    pub seen: LinkedList<(u32, E)>,
    pub seen_faults: u64,
    /// The events that the pass added.
    pub made: LinkedList<(u32, E)>,
    /// For each turn, how long the history was as the turn began.
    pub stops: LinkedList<u64>,
    /// How much the count of faults rose in the turns of this pass.
    pub faults: u64,
    /// How many passes were split off this one.
    pub split: u32,
    /// The passes that were joined into this one, the last first.
    pub joined: LinkedList<Joined<E>>,
    pub turn: Turn<E>,
}

/// A pass that was joined into pass 0.
pub struct Joined<E> {
    pub number: u32,
    pub made: LinkedList<(u32, E)>,
    /// How many turns it had.
    pub gives: u64,
    pub faults: u64,
    /// The histories and the counts of faults that pass 0 and this pass had seen before they were joined.
    pub kept_seen: LinkedList<(u32, E)>,
    pub other_seen: LinkedList<(u32, E)>,
    pub kept_seen_faults: u64,
    pub other_seen_faults: u64,
}

/// Where a pass stands in its turn.
pub enum Turn<E> {
    /// It has no ticket.
    Rest,
    /// It waits with this ticket.
    Drawn(u64),
    /// It has this ticket, and the value in its hand. The turn began with this history and this count of faults.
    Served(u64, LinkedList<(u32, E)>, u64),
}
