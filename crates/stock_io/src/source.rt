//! Sources, of which bytes are read in pieces.
ghost use Rattle.std.specs.Prelude.{◌≡◌, ℕ, ◌+◌, ◌<◌, Option, List, length, take, IfOk, OnOk, OnErr};
ghost use Rattle.std.specs.Io.{ReadsAtMost};
ghost use Rattle.std.specs.Io.KnownBytes.{Consumes, IsAtEnd, Keeps};
ghost use Rattle.stock_io.specs.Counts.{Rose, NeverFalls};

use crate::failed::Failed;

/// Where bytes come from.
pub trait Source {
    // The bytes that are left, where the source tells them. `None` claims nothing.
    ghost left: { Self → Option (List ℕ) };

    // How many bytes were taken so far, whether or not the source tells them.
    ghost taken: { Self → ℕ };

    // How many faults there were.
    ghost faults: { Self → ℕ };

    // What a read leaves as it was, beside what the clauses of `read` say.
    ghost read_leaves: { Self → Self → Type 0 } = { λ _ _. Unit {0} };

    /// Reads some bytes into the front of the buffer and says how many, as soon as some are there.
    /// No bytes come only at the end. A read that succeeds has counted no fault.
    ///
    /// # Errors
    ///
    /// `Failed` where the source failed: no byte was taken, and a fault was counted.
    fn read(&mut self, buf: &mut [u8]) -> Result<usize, Failed>
        requires { 0 < length buf.old }
        ensures bound { ReadsAtMost result buf.new }
        ensures bytes { IfOk result (λ n.
            Consumes (left self.old) (left self.new) (take n buf.new)) }
        ensures end { IfOk result (λ n. n ≡ 0 → IsAtEnd (left self.old)) }
        ensures count { IfOk result (λ n. taken self.new ≡ taken self.old + n) }
        ensures faults_kept { OnOk result (faults self.new ≡ faults self.old) }
        ensures left_kept { OnErr result (Keeps (left self.old) (left self.new)) }
        ensures taken_kept { OnErr result (taken self.new ≡ taken self.old) }
        ensures never_falls { NeverFalls (faults self.old) (faults self.new) }
        ensures cause { OnErr result (Rose (faults self.old) (faults self.new)) }
        ensures frame { read_leaves self.old self.new };
}
