//! Standard input as a source, standard output and standard error as sinks.
ghost use Rattle.std.specs.Prelude.{◌≡◌, ◌<◌, length, IfOk, OnOk, OnErr};
ghost use Rattle.std.specs.Io.{ReadsAtMost, WritesAtMost};
ghost use Rattle.stock_io.specs.Counts.{NeverFalls, raised};
ghost use Rattle.stock_io.specs.Standard.{new_reading, after_bytes, after_failed_read};

use crate::edge::{count_fault, taken_of, written_of};
use crate::failed::Failed;
use crate::sink::Sink;
use crate::source::Source;
use std::io::{Print, Read, Stderr};
use std::marker::Model;

/// Standard input as a source. It doesn't tell its content.
#[derive(Drop)]
pub struct StdSource<R: Input> {
    reader: R::Reader,
    taken: u64,
    faults: u64,
}

impl<R: Input> Model for StdSource<R> {
    ghost use Rattle.stock_io.specs.Standard.{Reading};

    ghost Value = { Reading };

    ghost view = { λ s. record { taken = s.taken; faults = s.faults } };
}

impl<R: Input> StdSource<R> {
    /// Standard input, of which nothing was taken yet.
    pub fn new(rt: &R) -> StdSource<R>
        ensures { result ≡ new_reading }
    {
        StdSource {
            reader: rt.reader(),
            taken: 0,
            faults: 0,
        }
    }

    /// How many bytes were taken so far. A read that failed took none.
    pub fn taken(&self) -> u64
        ensures { result ≡ self.now.taken }
    {
        self.taken
    }

    /// How many reads failed. The count stays at `u64::MAX`.
    pub fn faults(&self) -> u64
        ensures { result ≡ self.now.faults }
    {
        self.faults
    }
}

impl<R: Input> Source for StdSource<R> {
    ghost use Rattle.std.specs.Prelude.{None};

    ghost left = { λ _. None };

    ghost taken = { λ s. s.taken };

    ghost faults = { λ s. s.faults };

    // One read of the input, so that what is there comes at once. Where the buffer could take the
    // count of bytes past its end, the read fails.
    fn read(&mut self, buf: &mut [u8]) -> Result<usize, Failed>
        requires { 0 < length buf.old }
        ensures bound { ReadsAtMost result buf.new }
        ensures never_falls { NeverFalls self.old.faults self.new.faults }
        ensures after_ok { IfOk result (λ n. self.new ≡ after_bytes self.old n) }
        ensures after_failed { OnErr result (self.new ≡ after_failed_read self.old) }
    {
        let room = u64::MAX - self.taken;
        if buf.len() as u64 > room {
            return Err(count_fault(&mut self.faults));
        }
        taken_of(self.reader.read(buf), &mut self.taken, &mut self.faults)
    }
}

/// A standard stream as a sink. It doesn't tell what was written.
#[derive(Drop)]
pub struct StdSink<P> {
    stream: P,
    faults: u64,
}

impl<P> Model for StdSink<P> {
    ghost use Rattle.std.specs.Prelude.{ℕ};

    ghost Value = { ℕ };

    ghost view = { λ s. s.faults };
}

impl<P: Print> StdSink<P> {
    /// Standard output, as a runtime prints to it. Nothing is held back between writes.
    pub fn output(rt: P) -> StdSink<P>
        ensures { result ≡ 0 }
    {
        StdSink {
            stream: rt,
            faults: 0,
        }
    }

    /// How many writes failed. The count stays at `u64::MAX`.
    pub fn faults(&self) -> u64
        ensures { result ≡ self.now }
    {
        self.faults
    }
}

impl StdSink<Stderr> {
    /// Standard error, with a count of faults of its own.
    pub fn notes(stream: Stderr) -> StdSink<Stderr>
        ensures { result ≡ 0 }
    {
        StdSink { stream, faults: 0 }
    }
}

impl<P: Print> Sink for StdSink<P> {
    ghost use Rattle.std.specs.Prelude.{None};

    ghost written = { λ _. None };

    ghost faults = { λ count. count };

    // One write to the stream, which holds nothing back.
    fn write(&mut self, bytes: &[u8]) -> Result<usize, Failed>
        requires { 0 < length bytes.now }
        ensures some { IfOk result (λ n. 0 < n) }
        ensures bound { WritesAtMost result bytes.now }
        ensures never_falls { NeverFalls self.old self.new }
        ensures after_ok { OnOk result (self.new ≡ self.old) }
        ensures after_failed { OnErr result (self.new ≡ raised self.old) }
    {
        written_of(self.stream.write_some(bytes), &mut self.faults)
    }
}
