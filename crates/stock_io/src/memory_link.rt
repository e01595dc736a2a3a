//! The double of a connection: what the peer sends is chosen, and what goes to it is kept.
ghost use Rattle.std.specs.Prelude.{◌≡◌, ◌<◌, ◌↔◌, ◌⊎◌, ◌+◌, ◌-◌, ◌^◌, [], ◌++◌, length, take, min, IfOk, OnErr, IsErr};
ghost use Rattle.std.specs.Io.{ReadsAtMost, WritesAtMost};
ghost use Rattle.stock_io.specs.Counts.{NeverFalls};
ghost use Rattle.stock_io.specs.Memory.{NextFails, IsFull, read_len, write_len};
ghost use Rattle.stock_io.specs.Links.{new_link, link_faults, after_link_read, after_failed_link_read, after_link_write, after_failed_link_write, after_end};

use crate::failed::Failed;
use crate::link::Link;
use crate::memory_sink::MemSink;
use crate::memory_source::MemSource;
use crate::sink::Sink;
use crate::source::Source;
use std::alloc::Global;
use std::marker::Model;
use stock_nums::lines::Lines;
use stock_nums::memory::NoMemory;

/// A link in memory, of which chosen reads and writes fail.
#[derive(Drop)]
pub struct MemLink {
    source: MemSource,
    sink: MemSink,
    ended: bool,
}

impl Model for MemLink {
    ghost use Rattle.stock_io.specs.Links.{PlannedLink};

    ghost Value = { PlannedLink };

    ghost view = { λ s. record { source = s.source; sink = s.sink; ended = s.ended } };
}

impl MemLink {
    /// A link whose peer sends these bytes, of which a read takes at most `piece`, and takes as many
    /// as there is room. The reads and the writes whose numbers, each counted from 1, are listed fail.
    ///
    /// # Errors
    ///
    /// `NoMemory` where the room can't be had. It is taken now: a write takes no memory.
    pub fn new(
        alloc: Global,
        bytes: Lines<u8>,
        piece: usize,
        room: usize,
        failing_reads: Lines<u64>,
        failing_writes: Lines<u64>,
    ) -> Result<MemLink, NoMemory>
        requires { 0 < piece }
        ensures { IfOk result (λ link. link ≡ new_link bytes piece room failing_reads failing_writes) }
    {
        Ok(MemLink {
            source: MemSource::new(bytes, piece, failing_reads),
            sink: MemSink::new(alloc, room, failing_writes)?,
            ended: false,
        })
    }

    /// How many bytes of the peer were taken so far.
    pub fn taken(&self) -> u64
        ensures { result ≡ self.now.source.supply.taken }
    {
        self.source.taken()
    }

    /// All the bytes that went to the peer, in order.
    pub fn written(&self) -> &[u8]
        ensures { result.now ≡ self.now.sink.written }
    {
        self.sink.bytes()
    }

    /// How many reads and writes failed, both together. The count stays at `u64::MAX`.
    pub fn faults(&self) -> u64
        ensures { result ≡ min (link_faults self.now) (2 ^ 64 - 1) }
    {
        self.source.faults().saturating_add(self.sink.faults())
    }

    /// Whether the link was ended. Nothing else ends it, and it stays so.
    pub fn is_ended(&self) -> bool
        ensures { result ≡ self.now.ended }
    {
        self.ended
    }
}

impl Source for MemLink {
    ghost use Rattle.std.specs.Prelude.{Some};

    ghost left = { λ s. Some s.source.supply.left };

    ghost taken = { λ s. s.source.supply.taken };

    ghost faults = { link_faults };

    ghost read_leaves = { λ old new. (new.sink ≡ old.sink) × (new.ended ≡ old.ended) };

    fn read(&mut self, buf: &mut [u8]) -> Result<usize, Failed>
        requires { 0 < length buf.old }
        ensures bound { ReadsAtMost result buf.new }
        ensures bytes { IfOk result (λ n.
            self.old.source.supply.left ≡ take n buf.new ++ self.new.source.supply.left) }
        ensures end { IfOk result (λ n. n ≡ 0 → self.old.source.supply.left ≡ []) }
        ensures never_falls { NeverFalls (link_faults self.old) (link_faults self.new) }

        // Which reads fail, how many bytes the others take, and what each leaves.
        ensures planned { IsErr result ↔ NextFails self.old.source.plan }
        ensures amount { IfOk result (λ n. n ≡ read_len self.old.source.supply (length buf.old)) }
        ensures after_ok { IfOk result (λ n. self.new ≡ after_link_read self.old n) }
        ensures after_failed { OnErr result (self.new ≡ after_failed_link_read self.old) }
    {
        self.source.read(buf)
    }
}

impl Sink for MemLink {
    ghost use Rattle.std.specs.Prelude.{Some};

    ghost written = { λ s. Some s.sink.written };

    ghost faults = { link_faults };

    ghost write_leaves = { λ old new. (new.source ≡ old.source) × (new.ended ≡ old.ended) };

    fn write(&mut self, bytes: &[u8]) -> Result<usize, Failed>
        requires { 0 < length bytes.now }
        ensures some { IfOk result (λ n. 0 < n) }
        ensures bound { WritesAtMost result bytes.now }
        ensures never_falls { NeverFalls (link_faults self.old) (link_faults self.new) }

        // Which writes fail, how many bytes the others take, and what each leaves.
        ensures planned { IsErr result ↔ (NextFails self.old.sink.plan ⊎ IsFull self.old.sink) }
        ensures amount { IfOk result (λ n. n ≡ write_len self.old.sink (length bytes.now)) }
        ensures after_ok { IfOk result (λ n. self.new ≡ after_link_write self.old (take n bytes.now)) }
        ensures after_failed { OnErr result (self.new ≡ after_failed_link_write self.old) }
    {
        self.sink.write(bytes)
    }
}

impl Link for MemLink {
    ghost use Rattle.std.proofs.Common.{refl, ap};
    ghost use Rattle.std.specs.Prelude.{Some};

    ghost ended = { λ s. s.ended };

    fn end(&mut self)
        ensures { self.new ≡ after_end self.old }
    {
        self.ended = true;
    }

    ghost one_count = { λ link. refl };

    ghost read_keeps = { λ old new leaves. (λ i. Some (leaves.0 i).written, leaves.1) };

    ghost write_keeps = { λ old new leaves. (λ i. Some (leaves.0 i).supply.left, λ i. (leaves.0 i).supply.taken, leaves.1) };
}
