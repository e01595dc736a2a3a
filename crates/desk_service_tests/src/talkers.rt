//! A listener to which peers with scripts come.
ghost use Rattle.std.specs.Prelude.{◌≡◌, ◌+◌, ◌<◌, OnOk, OnErr, IfOk};
ghost use Rattle.stock_io.specs.Counts.{NeverFalls};
ghost use Rattle.stock_io.specs.Nets.{new_port, new_connection, after_listening, after_port_fault, after_handing_out, after_taking_back};

use crate::script::Script;
use crate::talker::Talker;
use std::marker::Model;
use std::sync::Wait;
use stock_io::failed::Failed;
use stock_io::listener::Listener;

/// The scripts of the peers that come, the first one last, and the peers that were hung up. It tells neither.
#[derive(Drop)]
pub struct Talkers<R> {
    waiting: Vec<Script<R>>,
    hung_up: Vec<Talker<R>>,
    asked: Option<(u16, Option<u32>)>,
    accepts: u64,
    hang_ups: u64,
    faults: u64,
}

impl<R> Model for Talkers<R> {
    ghost use Rattle.std.specs.Prelude.{◌-◌, ◌≤◌};
    ghost use Rattle.stock_io.specs.Nets.{Port};

    ghost Value = { Port };

    ghost view = { λ s. record { hang_ups = s.hang_ups; outstanding = s.accepts - s.hang_ups; faults = s.faults; asked = s.asked } };

    ghost invariant = { λ s. s.hang_ups ≤ s.accepts };
}

impl<R> Talkers<R> {
    /// A listener to which peers with these scripts come, the last one first.
    pub fn new(waiting: Vec<Script<R>>, hung_up: Vec<Talker<R>>) -> Talkers<R>
        ensures { result ≡ new_port }
    {
        Talkers {
            waiting,
            hung_up,
            asked: None,
            accepts: 0,
            hang_ups: 0,
            faults: 0,
        }
    }

    /// The peers that were hung up, first the one that was hung up first.
    pub fn hung_up(&self) -> &[Talker<R>] {
        self.hung_up.as_slice()
    }

    // Counts a fault.
    fn fail(&mut self) -> Failed
        ensures never_falls { NeverFalls self.old.faults self.new.faults }
        ensures fault { self.new ≡ after_port_fault self.old }
    {
        self.faults = self.faults.saturating_add(1);
        Failed
    }

    // Counts one more peer that was hung up. That it was handed out is tested once more, so that the sum is seen to fit.
    fn count_hang_up(&mut self)
        requires { 0 < self.old.outstanding }
        ensures { self.new ≡ after_taking_back self.old }
    {
        if self.hang_ups < self.accepts {
            self.hang_ups += 1;
        }
    }
}

impl<R: Wait + Send + Drop> Listener for Talkers<R> {
    type Peer = Talker<R>;

    ghost use Rattle.std.specs.Prelude.{None};
    ghost use Rattle.std.proofs.Math.Nat.{le-add_right};

    ghost waiting = { λ _. None };

    ghost hung_up = { λ _. None };

    ghost accepts = { λ s. s.hang_ups + s.outstanding };

    ghost hang_ups = { λ s. s.hang_ups };

    ghost faults = { λ s. s.faults };

    ghost listens_to = { λ s. s.asked };

    ghost no_more_hung_up = { λ s. le-add_right s.hang_ups s.outstanding };

    fn listen(&mut self, port: u16, idle: Option<u32>) -> Result<(), Failed>
        ensures never_falls { NeverFalls self.old.faults self.new.faults }
        ensures after_ok { OnOk result (self.new ≡ after_listening port idle self.old) }
        ensures after_failed { OnErr result (self.new ≡ after_port_fault self.old) }
    {
        self.asked = Some((port, idle));
        Ok(())
    }

    fn accept(&mut self) -> Result<Talker<R>, Failed>
        ensures never_falls { NeverFalls self.old.faults self.new.faults }
        ensures fresh { IfOk result (λ peer. peer ≡ new_connection) }
        ensures outstanding { OnOk result (0 < self.new.outstanding) }
        ensures after_ok { OnOk result (self.new ≡ after_handing_out self.old) }
        ensures after_failed { OnErr result (self.new ≡ after_port_fault self.old) }
    {
        if self.accepts == u64::MAX {
            return Err(self.fail());
        }
        match self.waiting.pop() {
            Some(script) => {
                self.accepts += 1;
                Ok(Talker::new(script))
            }
            None => Err(self.fail()),
        }
    }

    // A peer for which memory is wanting is dropped.
    fn hang_up(&mut self, peer: Talker<R>)
        requires { 0 < self.old.outstanding }
        ensures { self.new ≡ after_taking_back self.old }
    {
        self.count_hang_up();
        if self.hung_up.push(peer).is_err() {}
    }
}
