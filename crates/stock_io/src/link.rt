//! Connections, each a source and a sink in one.
ghost use Rattle.std.specs.Prelude.{◌≡◌, true, Bool};

use crate::sink::Sink;
use crate::source::Source;

/// A connection: bytes come from its peer, and bytes go to it. One count of faults covers both
/// directions.
pub trait Link: Source + Sink + Send + Drop {
    // Whether it was ended. This is always known.
    ghost ended: { Self → Bool };

    /// Ends the connection in both directions. It takes and writes nothing, and can't be refused.
    fn end(&mut self)
        ensures ended { ended self.new ≡ true }
        ensures left_kept { Self.left self.new ≡ Self.left self.old }
        ensures taken_kept { Self.taken self.new ≡ Self.taken self.old }
        ensures written_kept { Self.written self.new ≡ Self.written self.old }
        ensures faults_kept { Self.Source.faults self.new ≡ Self.Source.faults self.old };

    // A fault of either direction is counted once, in one count.
    ghost one_count: { (link : Self) → Self.Sink.faults link ≡ Self.Source.faults link };

    // A read leaves what was written, and whether the link was ended.
    ghost read_keeps: { (old new : Self) → Self.read_leaves old new
        → (Self.written new ≡ Self.written old) × (ended new ≡ ended old) };

    // A write leaves what is left, how much was taken, and whether the link was ended.
    ghost write_keeps: { (old new : Self) → Self.write_leaves old new
        → (Self.left new ≡ Self.left old) × (Self.taken new ≡ Self.taken old) × (ended new ≡ ended old) };
}
