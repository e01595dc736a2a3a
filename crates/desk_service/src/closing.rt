//! The word by which a worker learns that the desks have ended.

use crate::gate::Shutdown;
use std::sync::Wait;
use std::sync::atomic::{AtomicU64, Ordering};
use std::time::Duration;

// The short time for which a worker rests where it found nothing to do, in milliseconds.
const REST_MILLIS: u64 = 10;

/// Whether the desks have ended: 1 then, and 0 before.
#[derive(Drop)]
pub struct Closing {
    word: AtomicU64,
}

impl Closing {
    /// The desks have not ended.
    pub fn new() -> Closing {
        Closing {
            word: AtomicU64::new(0),
        }
    }

    /// The desks have ended. A worker that rests goes on at once.
    pub fn close(&self) {
        self.word.store(1, Ordering::SeqCst);
        self.word.wake_all();
    }
}

/// What a worker knows of the end of the desks.
#[derive(Drop)]
pub struct Watch<'a, R: Wait> {
    rt: &'a R,
    closing: &'a Closing,
    rests: u64,
    is_closed: bool,
}

impl<'a, R: Wait> Watch<'a, R> {
    /// Nothing yet.
    pub fn new(rt: &'a R, closing: &'a Closing) -> Watch<'a, R> {
        Watch {
            rt,
            closing,
            rests: 0,
            is_closed: false,
        }
    }
}

impl<'a, R: Wait> Shutdown for Watch<'a, R> {
    ghost rests = { λ watch. watch.rests };

    ghost begun = { λ watch. watch.is_closed };

    fn rest(&mut self, times: u32) {
        let millis = REST_MILLIS * u64::from(times);
        self.closing
            .word
            .park_timeout(self.rt, 0, Duration::from_millis(millis));
        self.rests = self.rests.saturating_add(u64::from(times));
    }

    fn has_begun(&mut self) -> bool {
        self.is_closed = self.closing.word.load(Ordering::SeqCst) != 0;
        self.is_closed
    }
}
