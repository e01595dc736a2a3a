//! Steps that contracts count, and that cost nothing when the program runs.
ghost use Rattle.std.specs.Prelude.{◌≡◌, ◌+◌, ◌<◌};

use std::marker::Model;
use std::sync::ledger::{Blank, Book, Ledger, Share};

/// A number of steps, which contracts see. It has no bytes.
#[derive(Drop)]
pub struct Steps<L: Ledger> {
    counted: Book<L>,
    counter: Share<L>,
    ghost counts: { 0 < counter.parts },
}

impl<L: Ledger> Model for Steps<L> {
    ghost use Rattle.std.specs.Prelude.{ℕ};

    ghost Value = { ℕ };

    ghost view = { λ steps. steps.counted.total };
}

impl<L: Ledger> Steps<L> {
    /// No steps yet, of the ledger that the blank one becomes. It takes no memory.
    pub fn new(blank: Blank) -> Steps<L>
        requires name { blank.name ≡ L.name }
        requires parts { blank.parts ≡ L.parts }
        requires some { 0 < L.parts }
        ensures { result ≡ 0 }
    {
        let (counted, counter) = blank.open();
        Steps { counted, counter }
    }

    /// Counts one step more.
    pub fn tick(&mut self)
        ensures { self.new ≡ self.old + 1 }
    {
        self.counted.add(&mut self.counter, 1);
    }
}
