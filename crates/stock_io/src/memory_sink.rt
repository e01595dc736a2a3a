//! The double of a sink: what was written can be looked at.
ghost use Rattle.std.specs.Prelude.{◌≡◌, ◌<◌, ◌↔◌, ◌⊎◌, length, take, IfOk, OnErr, IsErr};
ghost use Rattle.std.specs.Io.{WritesAtMost};
ghost use Rattle.stock_io.specs.Counts.{NeverFalls};
ghost use Rattle.stock_io.specs.Memory.{NextFails, IsFull, write_len, new_sink, after_write, after_failed_write};

use crate::failed::Failed;
use crate::plan::FailurePlan;
use crate::sink::Sink;
use std::alloc::Global;
use std::marker::Model;
use stock_nums::lines::Lines;
use stock_nums::memory::NoMemory;

/// A sink into memory, with room for so many bytes, of which chosen writes fail.
#[derive(Drop)]
pub struct MemSink {
    bytes: Vec<u8>,
    room: usize,
    plan: FailurePlan,
}

impl Model for MemSink {
    ghost use Rattle.std.specs.Prelude.{◌≤◌, vec_len, vec_capacity};
    ghost use Rattle.stock_io.specs.Memory.{PlannedStore};

    ghost Value = { PlannedStore };

    ghost view = { λ s. record { written = s.bytes.items; room = s.room; plan = s.plan } };

    ghost invariant = { λ s. (vec_len s.bytes ≤ s.room) × (s.room ≤ vec_capacity s.bytes) };
}

impl MemSink {
    /// A sink with room for so many bytes in all. The writes whose numbers, counted from 1, stand in
    /// `failing` fail, and so does a write that finds no room.
    ///
    /// # Errors
    ///
    /// `NoMemory` where the room can't be had. It is taken now: a write takes no memory.
    pub fn new(alloc: Global, room: usize, failing: Lines<u64>) -> Result<MemSink, NoMemory>
        ensures { IfOk result (λ sink. sink ≡ new_sink room failing) }
    {
        Ok(MemSink {
            bytes: Vec::with_capacity(alloc, room)?,
            room,
            plan: FailurePlan::new(failing),
        })
    }

    /// All the bytes that were written, in order.
    pub fn bytes(&self) -> &[u8]
        ensures { result.now ≡ self.now.written }
    {
        self.bytes.as_slice()
    }

    /// How many writes failed, as planned or for want of room. The count stays at `u64::MAX`.
    pub fn faults(&self) -> u64
        ensures { result ≡ self.now.plan.faults }
    {
        self.plan.faults()
    }
}

impl Sink for MemSink {
    ghost use Rattle.std.specs.Prelude.{Some};

    ghost written = { λ s. Some s.written };

    ghost faults = { λ s. s.plan.faults };

    fn write(&mut self, bytes: &[u8]) -> Result<usize, Failed>
        requires { 0 < length bytes.now }
        ensures some { IfOk result (λ n. 0 < n) }
        ensures bound { WritesAtMost result bytes.now }
        ensures never_falls { NeverFalls self.old.plan.faults self.new.plan.faults }

        // Which writes fail, how many bytes the others take, and what each leaves.
        ensures planned { IsErr result ↔ (NextFails self.old.plan ⊎ IsFull self.old) }
        ensures amount { IfOk result (λ n. n ≡ write_len self.old (length bytes.now)) }
        ensures after_ok { IfOk result (λ n. self.new ≡ after_write self.old (take n bytes.now)) }
        ensures after_failed { OnErr result (self.new ≡ after_failed_write self.old) }
    {
        if self.plan.next_fails() {
            return Err(Failed);
        }
        let room = self.room - self.bytes.len();
        if room == 0 {
            self.plan.count_fault();
            return Err(Failed);
        }
        let n = bytes.len().min(room);
        let piece = &bytes[..n];
        match self.bytes.extend_from_slice(piece) {
            Ok(()) => Ok(n),
            // The room was taken at the start.
            Err(_) => unreachable!(),
        }
    }
}
