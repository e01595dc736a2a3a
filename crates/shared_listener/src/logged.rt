//! The shared listener as a value under a lock, which hands it out in turn.

use crate::listener::SharedListener;
use crate::step::Step;
use stock_io::listener::Listener;
use turn_lock::logged::Logged;

impl<L: Listener> Logged for SharedListener<L> {
    ghost use Rattle.std.specs.Prelude.{None, ⊤};

    type Event = Step<L, L::Peer>;

    ghost history = { λ shared. shared.log };

    // A listener's own faults are told by its log.
    ghost faults = { λ shared. 0 };

    ghost start = { λ shared. record { plan = None; calls = 0; events = 0 } };

    ghost follows = { λ start shared. ⊤ };

    ghost starts = { λ shared. tt };
}
