//! The word by which a desk learns that it has no thread.

use std::sync::atomic::{AtomicU64, Ordering};
use stock_nums::numbers::DeskNo;

/// The number of the last desk for which no thread could be made, and 0 before.
#[derive(Drop)]
pub struct Alone {
    word: AtomicU64,
}

impl Alone {
    /// No desk is alone.
    pub fn new() -> Alone {
        Alone {
            word: AtomicU64::new(0),
        }
    }

    /// This desk is the last one for which no thread could be made.
    pub fn tell(&self, number: DeskNo) {
        self.word.store(u64::from(number.0), Ordering::SeqCst);
    }

    /// Whether this desk is the last one for which no thread could be made.
    pub fn is(&self, number: DeskNo) -> bool {
        self.word.load(Ordering::SeqCst) == u64::from(number.0)
    }
}
