ghost use Rattle.std.specs.Prelude.{◌≡◌, All, None, ⊤};
ghost use Rattle.turn_lock.specs.Histories.{BeginsWith, past};

use std::alloc::Global;
use turn_lock::logged::Logged;

/// Events in memory, each with the number of its maker.
#[derive(Drop)]
pub struct Notes {
    events: Vec<(u32, u32)>,
}

impl Logged for Notes {
    type Event = u32;

    ghost history = { λ notes. notes.events.items };

    ghost faults = { λ _. 0 };

    // Nothing is told of calls.
    ghost start = { λ _. record { plan = None; calls = 0; events = 0 } };

    ghost follows = { λ _ _. ⊤ };

    ghost starts = { λ _. tt };
}

impl Notes {
    pub fn new(alloc: Global) -> Notes {
        Notes {
            events: Vec::new(alloc),
        }
    }

    /// Adds an event, or nothing where memory is wanting.
    pub fn add(&mut self, maker: u32, event: u32)
        ensures begins { BeginsWith self.new.events.items self.old.events.items }
        ensures own { All (λ e. e.0 ≡ maker) (past self.old.events.items self.new.events.items) }
    {
        if self.events.push((maker, event)).is_err() {}
    }

    pub fn count(&self) -> usize {
        self.events.len()
    }
}
