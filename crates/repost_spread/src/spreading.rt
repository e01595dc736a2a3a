//! To which movements a new value spreads: the next of an item in a warehouse at the moving average, and those that take the
//! value over.
ghost use Rattle.std.specs.Prelude.{◌≡◌, not, Contains, List};
ghost use Rattle.stock_nums.specs.declared.entry.Entry.{Entry};
ghost use Rattle.stock_model.specs.Enough.{IsEnough};
ghost use Rattle.repost_frontier.specs.Readings.{found_of, value_of};
ghost use Rattle.repost_laws.specs.Fetches.{HaveOneMethod};
ghost use Rattle.repost_laws.specs.Looks.{TakesUnits};
ghost use Rattle.repost_laws.specs.Touched.{had_after, had_value, IsMarked};
ghost use Rattle.repost_spread.specs.Marks.{AreMarked};
ghost use Rattle.repost_spread.specs.Movements.{AreKept, line_of, slots_of};
ghost use Rattle.repost_spread.specs.Spreads.{LeavesWithin};
ghost use Rattle.repost_spread.specs.Touches.{ComesNext};

use crate::movements::Movements;
use crate::naming::key_of;
use cost_links::values::Valued;
use stock_nums::cause::Method;
use stock_nums::entry::{Entry, Key};
use stock_nums::numbers::Qty;
use stock_nums::place::Side;

/// What is found otherwise than before of a movement.
#[derive(Clone, Copy)]
struct Differs {
    /// What it is worth.
    value: bool,
    /// What is held after it at the moving average.
    after: bool,
}

impl Movements {
    /// Makes suspect each movement to which it spreads that this is now found of one: the next of its item in its warehouse at
    /// the moving average, where its value or what is held after it differs from what was found before, and those that take its
    /// value over, where that differs. What is found first differs. It takes no memory.
    pub fn spread(&mut self, entry: &Entry, now: &Valued)
        requires kept { AreKept self.old }
        requires held { Contains (line_of self.old) entry.now }
        requires enough { IsEnough (line_of self.old) }
        requires one_method { HaveOneMethod (line_of self.old) }
        ensures { AreMarked self.old self.new (IsMarked (line_of self.old) (found_of (slots_of self.old)) entry.now.place (value_of now.now)) }
    {
        let differs = self.differs(entry, now);
        if differs.value || differs.after {
            self.mark_next(entry);
        }
        if differs.value {
            self.mark_linked(entry);
            self.mark_takers(entry);
        }
    }

    // What of this was not found of the movement before.
    fn differs(&self, entry: &Entry, now: &Valued) -> Differs
        ensures value { result.value ≡ not (had_value (found_of (slots_of self.now)) entry.now.place (value_of now.now)) }
        ensures after { result.after ≡ not (had_after (found_of (slots_of self.now)) entry.now.place (value_of now.now)) }
    {
        match self.frontier.get(&entry.place) {
            Some(slot) => match slot.found {
                Some(was) => Differs {
                    value: was.worth.value != now.worth.value,
                    after: was.after != now.after,
                },
                None => ALL_DIFFERS,
            },
            None => ALL_DIFFERS,
        }
    }

    // Makes the next of the item in the warehouse suspect, where it is costed at the moving average.
    fn mark_next(&mut self, entry: &Entry)
        ghost line: { List Entry }
        requires kept { AreKept self.old }
        requires same { line_of self.old ≡ line }
        requires held { Contains line entry.now }
        requires one_method { HaveOneMethod line }
        ensures { AreMarked self.old self.new (ComesNext line entry.now) }
    {
        if entry.method == Method::Average {
            if let Some(place) = self.index.next(key_of(entry), &entry.place) {
                self.mark(&place);
            }
        }
    }

    // Makes suspect what leaves first in, first out with units that this movement brought.
    fn mark_takers(&mut self, entry: &Entry)
        ghost line: { List Entry }
        requires kept { AreKept self.old }
        requires same { line_of self.old ≡ line }
        requires held { Contains line entry.now }
        requires one_method { HaveOneMethod line }
        ensures { AreMarked self.old self.new (TakesUnits line entry.now) }
    {
        if entry.method == Method::Fifo && entry.place.side == Side::Enters {
            let from = self.index.entered_before(entry);
            self.mark_leaving(key_of(entry), from, Qty(from.0 + entry.qty.0));
        }
    }

    // Makes suspect what left with units that have a number from this one until that one.
    fn mark_leaving(&mut self, key: Key, from: Qty, until: Qty)
        ghost line: { List Entry }
        requires kept { AreKept self.old }
        requires same { line_of self.old ≡ line }
        ensures { AreMarked self.old self.new (LeavesWithin line key from.0 until.0) }
    {
        let mut unit = from.0;
        while unit < until.0 {
            let Some(layer) = self.index.unit_out(key, Qty(unit)) else {
                return;
            };
            self.frontier.mark(&layer.place);
            unit = layer.begin.0 + layer.qty.0;
        }
    }
}

// Nothing was found before.
const ALL_DIFFERS: Differs = Differs {
    value: true,
    after: true,
};
