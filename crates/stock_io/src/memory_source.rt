//! The double of a source: the bytes that it gives are chosen.
ghost use Rattle.std.specs.Prelude.{◌≡◌, ◌<◌, ◌↔◌, [], ◌++◌, length, take, IfOk, OnErr, IsErr};
ghost use Rattle.std.specs.Io.{ReadsAtMost};
ghost use Rattle.stock_io.specs.Counts.{NeverFalls};
ghost use Rattle.stock_io.specs.Memory.{NextFails, read_len, new_source, after_read, after_failed_read};

use crate::failed::Failed;
use crate::plan::FailurePlan;
use crate::source::Source;
use crate::sure::SureSource;
use std::marker::Model;
use stock_nums::lines::Lines;

/// A source over bytes in memory, of which chosen reads fail.
#[derive(Drop)]
pub struct MemSource {
    source: SureSource,
    plan: FailurePlan,
}

impl Model for MemSource {
    ghost use Rattle.stock_io.specs.Memory.{PlannedSupply};

    ghost Value = { PlannedSupply };

    ghost view = { λ s. record { supply = s.source; plan = s.plan } };
}

impl MemSource {
    /// A source of these bytes, of which a read takes at most `piece`. The reads whose numbers,
    /// counted from 1, stand in `failing` fail.
    pub fn new(bytes: Lines<u8>, piece: usize, failing: Lines<u64>) -> MemSource
        requires { 0 < piece }
        ensures { result ≡ new_source bytes piece failing }
    {
        MemSource {
            source: SureSource::new(bytes, piece),
            plan: FailurePlan::new(failing),
        }
    }

    /// How many bytes were taken so far. A read that failed took none.
    pub fn taken(&self) -> u64
        ensures { result ≡ self.now.supply.taken }
    {
        self.source.taken()
    }

    /// How many reads failed, all of them planned. The count stays at `u64::MAX`.
    pub fn faults(&self) -> u64
        ensures { result ≡ self.now.plan.faults }
    {
        self.plan.faults()
    }
}

impl Source for MemSource {
    ghost use Rattle.std.specs.Prelude.{Some, Ok};

    ghost left = { λ s. Some s.supply.left };

    ghost taken = { λ s. s.supply.taken };

    ghost faults = { λ s. s.plan.faults };

    fn read(&mut self, buf: &mut [u8]) -> Result<usize, Failed>
        requires { 0 < length buf.old }
        ensures bound { ReadsAtMost result buf.new }
        ensures bytes { IfOk result (λ n.
            self.old.supply.left ≡ take n buf.new ++ self.new.supply.left) }
        ensures end { IfOk result (λ n. n ≡ 0 → self.old.supply.left ≡ []) }
        ensures never_falls { NeverFalls self.old.plan.faults self.new.plan.faults }

        // Which reads fail, how many bytes the others take, and what each leaves.
        ensures planned { IsErr result ↔ NextFails self.old.plan }
        ensures amount { IfOk result (λ n. n ≡ read_len self.old.supply (length buf.old)) }
        ensures after_ok { IfOk result (λ n. self.new ≡ after_read self.old n) }
        ensures after_failed { OnErr result (self.new ≡ after_failed_read self.old) }
    {
        if self.plan.next_fails() {
            return Err(Failed);
        }
        self.source.read(buf)
    }
}
