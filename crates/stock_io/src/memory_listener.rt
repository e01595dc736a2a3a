//! The double of a listener: the peers that come are chosen.
ghost use Rattle.std.specs.Prelude.{◌≡◌, ◌+◌, ◌<◌, ◌↔◌, ◌⊎◌, [], ◌∷◌, length, map, All, IfOk, OnOk, OnErr, IsErr};
ghost use Rattle.stock_io.specs.Counts.{NeverFalls};
ghost use Rattle.stock_io.specs.Memory.{NextFails};
ghost use Rattle.stock_io.specs.Listeners.{IsNewPeer, new_peers, after_listen, after_failed_call, after_accept, after_hang_up};

use crate::failed::Failed;
use crate::listener::Listener;
use crate::memory_link::MemLink;
use crate::plan::FailurePlan;
use std::alloc::Global;
use std::marker::Model;
use stock_nums::lines::Lines;
use stock_nums::memory::NoMemory;

/// A listener in memory, with the peers that come, of whose calls chosen ones fail.
#[derive(Drop)]
pub struct MemListener {
    // The first peer stands last.
    waiting: Vec<MemLink>,
    hung_up: Vec<MemLink>,
    accepts: usize,
    // None until it listens: the port, and the seconds that a peer may be silent. Those of the double never are.
    asked: Option<(u16, Option<u32>)>,
    plan: FailurePlan,
}

impl Model for MemListener {
    ghost use Rattle.std.specs.Prelude.{◌≡◌, ◌+◌, ◌-◌, ◌≤◌, reverse, vec_len, vec_capacity, All, length};
    ghost use Rattle.stock_io.specs.Listeners.{PlannedPeers, IsNewPeer};

    ghost Value = { PlannedPeers };

    ghost view = { λ s. record { waiting = reverse s.waiting.items; hung_up = s.hung_up.items; outstanding = s.accepts - vec_len s.hung_up; asked = s.asked; plan = s.plan } };

    ghost invariant = { λ s. (vec_len s.hung_up ≤ s.accepts) × (s.accepts + vec_len s.waiting ≤ vec_capacity s.hung_up)
        × All IsNewPeer s.waiting.items };
}

impl MemListener {
    /// A listener with these peers, the first of which comes first. Nothing was used of them yet. The
    /// calls of `listen` and `accept` whose numbers, counted from 1 over both, stand in `failing` fail.
    ///
    /// # Errors
    ///
    /// `NoMemory` where the room for all that are hung up can't be had. It is taken now.
    pub fn new(
        alloc: Global,
        peers: Vec<MemLink>,
        failing: Lines<u64>,
    ) -> Result<MemListener, NoMemory>
        requires { All IsNewPeer peers.items }
        ensures { IfOk result (λ listener. listener ≡ new_peers peers.items failing) }
    {
        let hung_up = Vec::with_capacity(alloc, peers.len())?;
        let mut waiting = peers;
        waiting.reverse();
        Ok(MemListener {
            waiting,
            hung_up,
            accepts: 0,
            asked: None,
            plan: FailurePlan::new(failing),
        })
    }

    /// The peers that were hung up, first the one that was hung up first.
    pub fn hung_up(&self) -> &[MemLink]
        ensures { result.now ≡ self.now.hung_up }
    {
        self.hung_up.as_slice()
    }

    /// How many calls of `listen` and `accept` failed. The count stays at `u64::MAX`.
    pub fn faults(&self) -> u64
        ensures { result ≡ self.now.plan.faults }
    {
        self.plan.faults()
    }
}

impl Listener for MemListener {
    type Peer = MemLink;

    ghost use Rattle.std.specs.Prelude.{Some, length};
    ghost use Rattle.std.proofs.Math.Nat.{le-add_right};

    ghost waiting = { λ s. Some s.waiting };

    ghost hung_up = { λ s. Some s.hung_up };

    ghost accepts = { λ s. length s.hung_up + s.outstanding };

    ghost hang_ups = { λ s. length s.hung_up };

    ghost faults = { λ s. s.plan.faults };

    ghost listens_to = { λ s. s.asked };

    ghost no_more_hung_up = { λ s. le-add_right (length s.hung_up) s.outstanding };

    fn listen(&mut self, port: u16, idle: Option<u32>) -> Result<(), Failed>
        ensures never_falls { NeverFalls self.old.plan.faults self.new.plan.faults }
        ensures planned { IsErr result ↔ NextFails self.old.plan }
        ensures after_ok { OnOk result (self.new ≡ after_listen port idle self.old) }
        ensures after_failed { OnErr result (self.new ≡ after_failed_call self.old) }
    {
        if self.plan.next_fails() {
            return Err(Failed);
        }
        self.asked = Some((port, idle));
        Ok(())
    }

    fn accept(&mut self) -> Result<MemLink, Failed>
        ensures never_falls { NeverFalls self.old.plan.faults self.new.plan.faults }

        // It fails as planned, and where no peer waits.
        ensures planned { IsErr result ↔ (NextFails self.old.plan ⊎ (self.old.waiting ≡ [])) }
        ensures first { IfOk result (λ peer. self.old.waiting ≡ peer ∷ self.new.waiting) }
        ensures fresh { IfOk result IsNewPeer }
        ensures outstanding { OnOk result (0 < self.new.outstanding) }
        ensures after_ok { OnOk result (self.new ≡ after_accept self.old self.new.waiting) }
        ensures after_failed { OnErr result (self.new ≡ after_failed_call self.old) }
    {
        if self.plan.next_fails() {
            return Err(Failed);
        }
        match self.waiting.pop() {
            Some(peer) => {
                self.accepts += 1;
                Ok(peer)
            }
            None => {
                self.plan.count_fault();
                Err(Failed)
            }
        }
    }

    fn hang_up(&mut self, peer: MemLink)
        requires { 0 < self.old.outstanding }
        ensures { self.new ≡ after_hang_up self.old peer }
    {
        match self.hung_up.push(peer) {
            Ok(()) => {}
            // The room was taken at the start.
            Err(_) => unreachable!(),
        }
    }
}
