//! The processor time that parts of a revaluation take.

use std::time::CpuClock;

/// The nanoseconds of processor time that the parts of a revaluation took.
#[derive(Clone, Copy)]
pub(crate) struct Spent {
    /// The fetch, with what the build then makes suspect.
    pub(crate) fetch: u64,
    /// All turns.
    pub(crate) turns: u64,
    /// To tell what changed.
    pub(crate) changed: u64,
}

/// The nanoseconds of processor time that were spent so far: none where the clock can't be read.
pub(crate) fn nanoseconds(clock: &impl CpuClock) -> u64 {
    match clock.thread_cpu_time() {
        Ok(time) => u64::try_from(time.as_nanos()).unwrap_or(0),
        Err(_) => 0,
    }
}
