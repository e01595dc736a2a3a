//! Where connections come from.
ghost use Rattle.std.specs.Prelude.{◌≡◌, ℕ, ◌+◌, ◌<◌, ◌≤◌, Option, Some, List, [], IfOk, OnOk, OnErr, IfSome, false};
ghost use Rattle.stock_io.specs.Counts.{Rose, NeverFalls};
ghost use Rattle.stock_io.specs.Listeners.{HandsOut, HangsUp, IsFresh};

use crate::failed::Failed;
use crate::link::Link;

/// Where peers come from, each with a link of its own.
pub trait Listener {
    /// A link to a peer.
    type Peer: Link;

    // The peers that wait to be accepted, first come first, where the listener tells them.
    ghost waiting: { Self → Option (List Self.Peer) };

    // The peers that were hung up, in that order, where the listener tells them.
    ghost hung_up: { Self → Option (List Self.Peer) };

    // How many peers were handed out, and how many were hung up. Both are always known.
    ghost accepts: { Self → ℕ };

    ghost hang_ups: { Self → ℕ };

    // How many faults there were.
    ghost faults: { Self → ℕ };

    // The port that it listens to, once it does, and how many seconds a peer may be silent, where that is limited.
    ghost listens_to: { Self → Option (ℕ × Option ℕ) };

    /// Listens to a port from now on. Where `idle` is given, a peer that has sent nothing for so many seconds, or taken nothing that is
    /// written to it, is one whose next read or write fails: at least 1.
    ///
    /// # Errors
    ///
    /// `Failed` where that can't be had: a fault was counted.
    fn listen(&mut self, port: u16, idle: Option<u32>) -> Result<(), Failed>
        ensures listens { OnOk result (listens_to self.new ≡ Some (port, idle)) }
        ensures port_kept { OnErr result (listens_to self.new ≡ listens_to self.old) }
        ensures waiting_kept { waiting self.new ≡ waiting self.old }
        ensures hung_up_kept { hung_up self.new ≡ hung_up self.old }
        ensures accepts_kept { accepts self.new ≡ accepts self.old }
        ensures hang_ups_kept { hang_ups self.new ≡ hang_ups self.old }
        ensures faults_kept { OnOk result (faults self.new ≡ faults self.old) }
        ensures never_falls { NeverFalls (faults self.old) (faults self.new) }
        ensures cause { OnErr result (Rose (faults self.old) (faults self.new)) };

    /// Hands out the first peer that waits, and waits for one. Nothing was taken from it or written
    /// to it yet.
    ///
    /// # Errors
    ///
    /// `Failed` where no peer could be had: a fault was counted.
    fn accept(&mut self) -> Result<Self::Peer, Failed>
        ensures first { IfOk result (λ peer. HandsOut (waiting self.old) (waiting self.new) peer) }
        ensures fresh { IfOk result (IsFresh Self.Peer.taken Self.Peer.written Self.Peer.Source.faults Self.Peer.ended) }
        ensures counted { OnOk result (accepts self.new ≡ accepts self.old + 1) }
        ensures outstanding { OnOk result (hang_ups self.new < accepts self.new) }
        ensures waiting_kept { OnErr result (waiting self.new ≡ waiting self.old) }
        ensures not_counted { OnErr result (accepts self.new ≡ accepts self.old) }
        ensures hung_up_kept { hung_up self.new ≡ hung_up self.old }
        ensures hang_ups_kept { hang_ups self.new ≡ hang_ups self.old }
        ensures port_kept { listens_to self.new ≡ listens_to self.old }
        ensures faults_kept { OnOk result (faults self.new ≡ faults self.old) }
        ensures never_falls { NeverFalls (faults self.old) (faults self.new) }
        ensures cause { OnErr result (Rose (faults self.old) (faults self.new)) };

    /// Takes back a peer that was handed out, for good. It can't be refused.
    fn hang_up(&mut self, peer: Self::Peer)
        requires { hang_ups self.old < accepts self.old }
        ensures last { HangsUp (hung_up self.old) (hung_up self.new) peer }
        ensures counted { hang_ups self.new ≡ hang_ups self.old + 1 }
        ensures waiting_kept { waiting self.new ≡ waiting self.old }
        ensures accepts_kept { accepts self.new ≡ accepts self.old }
        ensures port_kept { listens_to self.new ≡ listens_to self.old }
        ensures faults_kept { faults self.new ≡ faults self.old };

    // No more peers were hung up than were handed out.
    ghost no_more_hung_up: { (listener : Self) → hang_ups listener ≤ accepts listener };
}
