//! Words that two peers share.
use std::sync::Wait;
use std::sync::atomic::{AtomicU64, Ordering};
use std::time::Duration;

/// How often a peer asks, or rests, before it gives up.
pub const MOST_TURNS: u32 = 1_000_000;

/// A word that is 0 at first, and 1 once it was set.
#[derive(Drop)]
pub struct Signal {
    word: AtomicU64,
}

impl Signal {
    /// A word that was not set.
    pub fn new() -> Signal {
        Signal {
            word: AtomicU64::new(0),
        }
    }

    /// Sets the word, and wakes those that wait for it.
    pub fn set(&self) {
        self.word.store(1, Ordering::SeqCst);
        self.word.wake_all();
    }

    /// Waits until the word is set, but no more than a million short rests. Says whether it is.
    pub fn is_set_in_time<R: Wait>(&self, rt: &R) -> bool {
        for _ in 0..MOST_TURNS {
            if self.word.load(Ordering::SeqCst) != 0 {
                return true;
            }
            self.word.park_timeout(rt, 0, Duration::from_millis(1));
        }
        false
    }
}

/// What the peers tell one another.
#[derive(Drop)]
pub struct Signals {
    /// The first one's item is covered.
    pub covered: Signal,
    /// The second one's warehouse was accepted.
    pub accepted: Signal,
}

impl Signals {
    /// Neither is so yet.
    pub fn new() -> Signals {
        Signals {
            covered: Signal::new(),
            accepted: Signal::new(),
        }
    }
}
