//! A source and a sink that never fail.
ghost use Rattle.std.specs.Prelude.{◌≡◌, ◌<◌, [], min, ◌++◌, length, take, drop, IfOk};
ghost use Rattle.std.specs.Io.{ReadsAtMost};
ghost use Rattle.stock_io.specs.Memory.{new_supply, read_len, after_taking};

use crate::failed::Failed;
use crate::sink::Sink;
use crate::source::Source;
use std::marker::Model;
use stock_nums::lines::Lines;

/// A source over bytes in memory that never fails.
#[derive(Drop)]
pub struct SureSource {
    bytes: Lines<u8>,
    taken: usize,
    piece: usize,
}

impl Model for SureSource {
    ghost use Rattle.std.specs.Prelude.{◌<◌, ◌≤◌, length, drop};
    ghost use Rattle.stock_io.specs.Memory.{Supply};

    ghost Value = { Supply };

    ghost view = { λ s. record { left = drop s.taken s.bytes; taken = s.taken; piece = s.piece } };

    ghost invariant = { λ s. (s.taken ≤ length s.bytes) × (0 < s.piece) };
}

impl SureSource {
    /// A source of these bytes, of which a read takes at most `piece`.
    pub fn new(bytes: Lines<u8>, piece: usize) -> SureSource
        requires { 0 < piece }
        ensures { result ≡ new_supply bytes piece }
    {
        SureSource {
            bytes,
            taken: 0,
            piece,
        }
    }

    /// How many bytes were taken so far.
    pub fn taken(&self) -> u64
        ensures { result ≡ self.now.taken }
    {
        self.taken as u64
    }
}

impl Source for SureSource {
    ghost use Rattle.std.specs.Prelude.{Some, Ok};

    ghost left = { λ s. Some s.left };

    ghost taken = { λ s. s.taken };

    ghost faults = { λ _. 0 };

    fn read(&mut self, buf: &mut [u8]) -> Result<usize, Failed>
        requires { 0 < length buf.old }
        ensures bound { ReadsAtMost result buf.new }
        ensures bytes { IfOk result (λ n. self.old.left ≡ take n buf.new ++ self.new.left) }
        ensures end { IfOk result (λ n. n ≡ 0 → self.old.left ≡ []) }
        ensures amount { result ≡ Ok (read_len self.old (length buf.old)) }
        ensures after { self.new ≡ after_taking self.old (read_len self.old (length buf.old)) }
    {
        let rest = &self.bytes.as_slice()[self.taken..];
        let piece = &rest[..rest.len().min(self.piece)];
        let n = copy_front(piece, buf);
        self.taken += n;
        Ok(n)
    }
}

// Copies as many bytes as both have, and says how many.
fn copy_front(from: &[u8], to: &mut [u8]) -> usize
    ensures count { result ≡ min (length to.old) (length from.now) }
    ensures copied { to.new ≡ take result from.now ++ drop result to.old }
{
    let n = to.len().min(from.len());
    to[..n].copy_from_slice(&from[..n]);
    n
}

/// A sink that takes all bytes, keeps none and never fails.
#[derive(Debug, Clone, Copy)]
pub struct SureSink;

impl SureSink {
    /// The sink. It has no state, so that any two are alike.
    pub fn new() -> SureSink {
        SureSink
    }
}

impl Sink for SureSink {
    ghost use Rattle.std.specs.Prelude.{None, Ok};

    ghost written = { λ _. None };

    ghost faults = { λ _. 0 };

    fn write(&mut self, bytes: &[u8]) -> Result<usize, Failed>
        requires { 0 < length bytes.now }
        ensures { result ≡ Ok (length bytes.now) }
    {
        Ok(bytes.len())
    }
}
