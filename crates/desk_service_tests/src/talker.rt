//! A peer that shares two words with another one, and goes on as the other one lets it.
ghost use Rattle.std.specs.Prelude.{◌≡◌, ◌<◌, length, IfOk, OnOk, OnErr};
ghost use Rattle.std.specs.Io.{ReadsAtMost, WritesAtMost};
ghost use Rattle.stock_io.specs.Counts.{NeverFalls};
ghost use Rattle.stock_io.specs.Nets.{new_connection, after_receiving, after_link_fault, after_ending};

use crate::script::Script;
use std::marker::Model;
use std::sync::Wait;
use stock_io::failed::Failed;
use stock_io::link::Link;
use stock_io::sink::Sink;
use stock_io::source::Source;

/// A link whose peer follows a script. It tells no bytes, counts those that were taken, and has no faults.
#[derive(Drop)]
pub struct Talker<R> {
    script: Script<R>,
    taken: u64,
    faults: u64,
    ended: bool,
}

impl<R> Model for Talker<R> {
    ghost use Rattle.stock_io.specs.Nets.{Connection};

    ghost Value = { Connection };

    ghost view = { λ s. record { taken = s.taken; faults = s.faults; ended = s.ended } };
}

impl<R> Talker<R> {
    /// A peer with this script, of which nothing was taken yet.
    pub fn new(script: Script<R>) -> Talker<R>
        ensures { result ≡ new_connection }
    {
        Talker {
            script,
            taken: 0,
            faults: 0,
            ended: false,
        }
    }

    /// The script, as far as it has come.
    pub fn script(&self) -> &Script<R> {
        &self.script
    }

    /// Whether the link was ended.
    pub fn is_ended(&self) -> bool {
        self.ended
    }
}

impl<R: Wait> Source for Talker<R> {
    ghost use Rattle.std.specs.Prelude.{None};

    ghost left = { λ _. None };

    ghost taken = { λ s. s.taken };

    ghost faults = { λ s. s.faults };

    ghost read_leaves = { λ old new. new.ended ≡ old.ended };

    // Where the count of bytes could come past its end, the peer ends.
    fn read(&mut self, buf: &mut [u8]) -> Result<usize, Failed>
        requires { 0 < length buf.old }
        ensures bound { ReadsAtMost result buf.new }
        ensures never_falls { NeverFalls self.old.faults self.new.faults }
        ensures after_ok { IfOk result (λ n. self.new ≡ after_receiving self.old n) }
        ensures after_failed { OnErr result (self.new ≡ after_link_fault self.old) }
    {
        if buf.len() as u64 > u64::MAX - self.taken {
            return Ok(0);
        }
        let n = self.script.send(buf);
        self.taken += n as u64;
        Ok(n)
    }
}

impl<R: Wait> Sink for Talker<R> {
    ghost use Rattle.std.specs.Prelude.{None};

    ghost written = { λ _. None };

    ghost faults = { λ s. s.faults };

    ghost write_leaves = { λ old new. (new.taken ≡ old.taken) × (new.ended ≡ old.ended) };

    fn write(&mut self, bytes: &[u8]) -> Result<usize, Failed>
        requires { 0 < length bytes.now }
        ensures some { IfOk result (λ n. 0 < n) }
        ensures bound { WritesAtMost result bytes.now }
        ensures never_falls { NeverFalls self.old.faults self.new.faults }
        ensures after_ok { OnOk result (self.new ≡ self.old) }
        ensures after_failed { OnErr result (self.new ≡ after_link_fault self.old) }
    {
        self.script.hear(bytes);
        Ok(bytes.len())
    }
}

impl<R: Wait + Send + Drop> Link for Talker<R> {
    ghost use Rattle.std.proofs.Common.{refl};

    ghost ended = { λ s. s.ended };

    fn end(&mut self)
        ensures { self.new ≡ after_ending self.old }
    {
        self.ended = true;
    }

    ghost one_count = { λ link. refl };

    ghost read_keeps = { λ old new leaves. (refl, leaves) };

    ghost write_keeps = { λ old new leaves. (refl, leaves.0, leaves.1) };
}
