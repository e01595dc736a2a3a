//! Sinks, and writing to them until all is written.
ghost use Rattle.std.specs.Prelude.{◌≡◌, ℕ, ◌+◌, ◌<◌, Option, List, length, take, IfOk, OnOk, OnErr};
ghost use Rattle.std.specs.Io.{WritesAtMost};
ghost use Rattle.std.specs.Io.KnownBytes.{Appends, Keeps};
ghost use Rattle.stock_io.specs.Counts.{Rose, NeverFalls};
ghost use Rattle.stock_io.specs.Streams.{AppendsFront, Chained};

use crate::failed::Failed;

/// Where bytes go.
pub trait Sink {
    // The bytes that were written, where the sink tells them. `None` claims nothing.
    ghost written: { Self → Option (List ℕ) };

    // How many faults there were.
    ghost faults: { Self → ℕ };

    // What a write leaves as it was, beside what the clauses of `write` say.
    ghost write_leaves: { Self → Self → Type 0 } = { λ _ _. Unit {0} };

    /// Writes a front of the bytes, at least one of them, and says how many. A write that succeeds has
    /// counted no fault.
    ///
    /// # Errors
    ///
    /// `Failed` where the sink failed: no byte was written, and a fault was counted.
    fn write(&mut self, bytes: &[u8]) -> Result<usize, Failed>
        requires { 0 < length bytes.now }
        ensures some { IfOk result (λ n. 0 < n) }
        ensures bound { WritesAtMost result bytes.now }
        ensures bytes { IfOk result (λ n.
            Appends (written self.old) (written self.new) (take n bytes.now)) }
        ensures faults_kept { OnOk result (faults self.new ≡ faults self.old) }
        ensures written_kept { OnErr result (Keeps (written self.old) (written self.new)) }
        ensures never_falls { NeverFalls (faults self.old) (faults self.new) }
        ensures cause { OnErr result (Rose (faults self.old) (faults self.new)) }
        ensures frame { write_leaves self.old self.new };
}

/// Writes all the bytes, in as many writes as that takes. No bytes take no write.
///
/// # Errors
///
/// `Failed` where a write failed: a front of the bytes was written, and a fault was counted.
pub fn write_all<W: Sink>(sink: &mut W, bytes: &[u8]) -> Result<(), Failed>
    ensures all { OnOk result (Appends (W.written sink.old) (W.written sink.new) bytes.now) }
    ensures faults_kept { OnOk result (W.faults sink.new ≡ W.faults sink.old) }
    ensures front { OnErr result
        (AppendsFront (W.written sink.old) (W.written sink.new) bytes.now) }
    ensures never_falls { NeverFalls (W.faults sink.old) (W.faults sink.new) }
    ensures cause { OnErr result (Rose (W.faults sink.old) (W.faults sink.new)) }
    ensures frame { Chained W.write_leaves sink.old sink.new }
{
    let mut rest = bytes;
    while !rest.is_empty() {
        let n = sink.write(rest)?;
        rest = &rest[n..];
    }
    Ok(())
}
