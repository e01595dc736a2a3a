//! What a movement takes over from others.
ghost use Rattle.std.specs.Prelude.{◌≡◌, ◌≤◌, pos, ◌≤ℤ◌, false, Contains, List, Some};
ghost use Rattle.stock_nums.specs.Causes.{is_entering};
ghost use Rattle.stock_nums.specs.declared.cause.Method.{Method};
ghost use Rattle.stock_nums.specs.declared.entry.Entry.{Entry};
ghost use Rattle.stock_nums.specs.declared.place.Place.{Place};
ghost use Rattle.stock_nums.specs.declared.limits.TheConstants.{MAX_VALUE};
ghost use Rattle.stock_model.specs.Enough.{IsEnough};
ghost use Rattle.stock_model.specs.Values.{own_line};
ghost use Rattle.cost_links.specs.Tables.{held_by};
ghost use Rattle.cost_links.specs.Taken.{taken_of, CanBeTaken};
ghost use Rattle.repost_frontier.specs.Readings.{found_of};
ghost use Rattle.repost_index.specs.Layers.{worth_between};
ghost use Rattle.repost_laws.specs.WholeBuilds.{worth_at, IsWorthInRange};
ghost use Rattle.repost_spread.specs.Takes.{held_at};
ghost use Rattle.repost_laws.specs.Valuations.{earlier, found_value, held_before_by, left_by, sources, taken_over, taken_from};
ghost use Rattle.repost_spread.specs.Movements.{AreKept, line_of, slots_of, charged_by};

use crate::movements::Movements;
use crate::naming::own_line;
use cost_formulas::average::Average;
use cost_links::values::TakenOver;
use stock_nums::cause::{Cause, Method, Target};
use stock_nums::entry::{Entry, Key};
use stock_nums::numbers::{Minor, Qty};
use stock_nums::part::part;
use stock_nums::place::{Place, Side};

impl Movements {
    /// What a movement takes over from others by what was found of them: what is charged to its line, what was returned of its
    /// target before it, what is held before it, and what its sources are worth. It takes no memory.
    pub fn taken_over(&self, entry: &Entry) -> TakenOver
        requires kept { AreKept self.now }
        requires held { Contains (line_of self.now) entry.now }
        requires enough { IsEnough (line_of self.now) }
        requires worths { (place : Place) → IsWorthInRange (found_of (slots_of self.now)) place }
        requires can { CanBeTaken (taken_from (charged_by self.now) (found_of (slots_of self.now)) (earlier (line_of self.now) entry.now) entry.now) entry.now }
        ensures taken { taken_of result ≡ taken_from (charged_by self.now) (found_of (slots_of self.now)) (earlier (line_of self.now) entry.now) entry.now }
        ensures charged_from_zero { pos 0 ≤ℤ result.charged.0 }
        ensures linked_from_zero { pos 0 ≤ℤ result.linked.0 }
    {
        TakenOver {
            charged: self.links.charged(own_line(entry)),
            back: self.links.returned_before(entry),
            held: self.held_before(entry),
            linked: self.linked(entry),
        }
    }

    // What is held before the movement at the moving average: nothing where its item is costed first in, first out.
    fn held_before(&self, entry: &Entry) -> Average
        ghost line: { List Entry }
        requires kept { AreKept self.now }
        requires same { line_of self.now ≡ line }
        ensures { held_by (Some result) ≡ held_before_by entry.now.method (found_of (slots_of self.now)) (earlier line entry.now) entry.now }
    {
        match entry.method {
            Method::Average => self.held_after(self.index.previous(entry)),
            Method::Fifo => Average::new(),
        }
    }

    // What was found to be held after the movement at the place: nothing where there is none.
    fn held_after(&self, place: Option<Place>) -> Average
        ensures { held_by (Some result) ≡ held_at (found_of (slots_of self.now)) place }
    {
        let Some(place) = place else {
            return Average::new();
        };
        match self.frontier.get(&place) {
            Some(slot) => match slot.found {
                Some(valued) => valued.after,
                None => Average::new(),
            },
            None => Average::new(),
        }
    }

    // What the movement's sources were found to be worth.
    fn linked(&self, entry: &Entry) -> Minor
        ghost line: { List Entry }
        requires kept { AreKept self.now }
        requires same { line_of self.now ≡ line }
        requires held { Contains line entry.now }
        requires enough { IsEnough line }
        requires worths { (place : Place) → IsWorthInRange (found_of (slots_of self.now)) place }
        requires small { taken_over (found_of (slots_of self.now)) (sources (earlier line entry.now) entry.now) ≤ MAX_VALUE }
        ensures { result.0 ≡ pos (taken_over (found_of (slots_of self.now)) (sources (earlier line entry.now) entry.now)) }
    {
        match entry.cause {
            Cause::Receipt { amount: _ } => Minor(0),
            Cause::TransferEnters => self.leaving_value(own_line(entry), entry),
            Cause::CustomerReturn { target, issued: _ } => self.leaving_value(target, entry),
            _ => self.units_value(entry),
        }
    }

    // What the movement that leaves by the line was found to be worth, where it comes before this one.
    fn leaving_value(&self, by: Target, entry: &Entry) -> Minor
        ghost line: { List Entry }
        requires kept { AreKept self.now }
        requires same { line_of self.now ≡ line }
        requires held { Contains line entry.now }
        requires worths { (place : Place) → IsWorthInRange (found_of (slots_of self.now)) place }
        ensures { result.0 ≡ pos (taken_over (found_of (slots_of self.now)) (left_by (earlier line entry.now) by)) }
    {
        let Some(place) = self.index.place_of(by, Side::Leaves) else {
            return Minor(0);
        };
        if place.is_before(&entry.place) {
            self.value_at(&place)
        } else {
            Minor(0)
        }
    }

    // What the movement at the place was found to be worth: 0 where there is none.
    fn value_at(&self, place: &Place) -> Minor
        ensures { result ≡ (worth_at (found_of (slots_of self.now)) place.now).value }
    {
        match self.frontier.get(place) {
            Some(slot) => match slot.found {
                Some(valued) => valued.worth.value,
                None => Minor(0),
            },
            None => Minor(0),
        }
    }

    // What the units that the movement takes first in, first out were found to be worth: nothing at the moving average.
    fn units_value(&self, entry: &Entry) -> Minor
        ghost line: { List Entry }
        requires kept { AreKept self.now }
        requires same { line_of self.now ≡ line }
        requires held { Contains line entry.now }
        requires leaves { is_entering entry.now.place.side ≡ false }
        requires enough { IsEnough line }
        requires worths { (place : Place) → IsWorthInRange (found_of (slots_of self.now)) place }
        requires small { taken_over (found_of (slots_of self.now)) (sources (earlier line entry.now) entry.now) ≤ MAX_VALUE }
        ensures { result.0 ≡ pos (taken_over (found_of (slots_of self.now)) (sources (earlier line entry.now) entry.now)) }
    {
        let key = Key {
            item: entry.item,
            store: entry.store,
        };
        match entry.method {
            Method::Average => Minor(0),
            Method::Fifo => {
                let from = self.index.left_before(entry);
                self.value_between(key, from, Qty(from.0 + entry.qty.0))
            }
        }
    }

    // What the units that entered from one number until another were found to be worth.
    fn value_between(&self, key: Key, from: Qty, until: Qty) -> Minor
        ghost line: { List Entry }
        requires kept { AreKept self.now }
        requires same { line_of self.now ≡ line }
        requires worths { (place : Place) → IsWorthInRange (found_of (slots_of self.now)) place }
        requires small { worth_between line key (found_value (found_of (slots_of self.now))) from.0 until.0 ≤ MAX_VALUE }
        ensures { result.0 ≡ pos (worth_between line key (found_value (found_of (slots_of self.now))) from.0 until.0) }
    {
        let mut unit = from.0;
        let mut value: u64 = 0;
        while unit < until.0 {
            let Some(layer) = self.index.unit_in(key, Qty(unit)) else {
                return Minor(value as i64);
            };
            let end = (layer.begin.0 + layer.qty.0).min(until.0);
            let before = Qty(unit - layer.begin.0);
            let worth = part(
                self.value_at(&layer.place),
                before,
                Qty(end - unit),
                layer.qty,
            );
            value += worth.0.unsigned_abs();
            unit = end;
        }
        Minor(value as i64)
    }
}
