//! The units that entered and left each item's warehouse, by their numbers in posting order.
ghost use Rattle.std.specs.Prelude.{◌≡◌, ◌+◌, ◌<◌, ◌≤◌, ◌^◌, ◌↔◌, pos, [], length, min, IsNone, IfSome, OnOk, Some, None};
ghost use Rattle.stock_model.specs.Enough.{entry_key};
ghost use Rattle.key_order.specs.Changes.{first_lack, leaving_change};
ghost use Rattle.key_order.specs.KeyOrders.{HasNoneAt, put_change, without_change};
ghost use Rattle.layer_ranges.specs.Layers.{layer_at, units_of_key, units_before, HoldsUnit, AreLeaving};
ghost use Rattle.layer_ranges.specs.declared.ranges.TheConstants.{MANY_UNITS};
ghost use Rattle.layer_ranges.specs.Sides.{changes_beside, put_entering, put_leaving, without_entering, without_leaving};

use crate::layer::Layer;
use key_order::change::{Change, Lack};
use key_order::order::KeyOrder;
use std::alloc::Global;
use std::marker::Model;
use stock_nums::entry::{Entry, Key};
use stock_nums::memory::NoMemory;
use stock_nums::numbers::Qty;
use stock_nums::place::{Place, Side};

/// More units than there ever are of an item in a warehouse.
const MANY_UNITS: u64 = 1 << 52;

/// For each item in each warehouse, the units that entered from 0 in posting order, and so those that left. At most 2^20
/// movements of each side, and at most one of an item in a warehouse at a place. Contracts see the changes of each side, and how
/// many more fit without memory.
#[derive(Drop)]
pub struct Ranges {
    entering: KeyOrder,
    leaving: KeyOrder,
}

impl Model for Ranges {
    ghost use Rattle.layer_ranges.specs.Layers.{AreLeaving};
    ghost use Rattle.layer_ranges.specs.RangesState.{RangesState};

    ghost Value = { RangesState };

    ghost view = { λ ranges.
        record {
          entering = ranges.entering.changes;
          leaving = ranges.leaving.changes;
          entering_spare = ranges.entering.spare;
          leaving_spare = ranges.leaving.spare;
        } };

    ghost invariant = { λ ranges. AreLeaving ranges.entering.changes × AreLeaving ranges.leaving.changes };
}

impl Ranges {
    /// No movement. It takes no memory.
    pub fn new(alloc: Global) -> Ranges
        ensures entering { result.entering ≡ [] }
        ensures leaving { result.leaving ≡ [] }
    {
        Ranges {
            entering: KeyOrder::new(alloc),
            leaving: KeyOrder::new(alloc),
        }
    }

    /// How many movements there are.
    pub fn len(&self) -> usize
        ensures { result ≡ length self.now.entering + length self.now.leaving }
    {
        self.entering.len() + self.leaving.len()
    }

    /// Makes room for `n` more movements of each side. The movements stay as they are, and no room is lost.
    pub fn reserve(&mut self, n: usize) -> Result<(), NoMemory>
        ensures entering_room { OnOk result (n ≤ self.new.entering_spare) }
        ensures leaving_room { OnOk result (n ≤ self.new.leaving_spare) }
        ensures entering { self.new.entering ≡ self.old.entering }
        ensures leaving { self.new.leaving ≡ self.old.leaving }
        ensures entering_room_stays { self.old.entering_spare ≤ self.new.entering_spare }
        ensures leaving_room_stays { self.old.leaving_spare ≤ self.new.leaving_spare }
    {
        self.entering.reserve(n)?;
        self.leaving.reserve(n)
    }

    /// Gives the room back that nothing stands in: for at most 128 more movements of each side some is left. The movements stay
    /// as they are. It takes no memory.
    pub fn release(&mut self)
        ensures entering { self.new.entering ≡ self.old.entering }
        ensures leaving { self.new.leaving ≡ self.old.leaving }
        ensures entering_released { self.new.entering_spare ≤ 128 }
        ensures leaving_released { self.new.leaving_spare ≤ 128 }
        ensures entering_room { min 2 self.old.entering_spare ≤ self.new.entering_spare }
        ensures leaving_room { min 2 self.old.leaving_spare ≤ self.new.leaving_spare }
    {
        self.entering.release();
        self.leaving.release();
    }

    /// Puts a movement in, where none of its item in its warehouse stands at its place on its side. It takes no memory.
    pub fn insert(&mut self, entry: &Entry)
        requires room { (0 < self.old.entering_spare) × (0 < self.old.leaving_spare) }
        requires few { length (changes_beside self.old entry.now) < 2 ^ 20 }
        requires apart { HasNoneAt (changes_beside self.old entry.now) (entry_key entry.now) entry.now.place }
        ensures entering { self.new.entering ≡ put_entering self.old.entering entry.now }
        ensures leaving { self.new.leaving ≡ put_leaving self.old.leaving entry.now }
        ensures entering_room { self.old.entering_spare ≤ self.new.entering_spare + 1 }
        ensures leaving_room { self.old.leaving_spare ≤ self.new.leaving_spare + 1 }
        ensures entering_before { AreLeaving self.old.entering }
        ensures leaving_before { AreLeaving self.old.leaving }
    {
        match entry.place.side {
            Side::Enters => put_in(&mut self.entering, entry),
            Side::Leaves => put_in(&mut self.leaving, entry),
        }
    }

    /// Takes the movement of the same item in the same warehouse at the same place out, if there is one. No room is lost. It
    /// takes no memory.
    pub fn remove(&mut self, entry: &Entry)
        ensures entering { self.new.entering ≡ without_entering self.old.entering entry.now }
        ensures leaving { self.new.leaving ≡ without_leaving self.old.leaving entry.now }
        ensures entering_room { self.old.entering_spare ≤ self.new.entering_spare }
        ensures leaving_room { self.old.leaving_spare ≤ self.new.leaving_spare }
    {
        match entry.place.side {
            Side::Enters => take_out(&mut self.entering, entry),
            Side::Leaves => take_out(&mut self.leaving, entry),
        }
    }

    /// The movement that the unit of this number entered with. None exactly where no more units entered than its number says.
    pub fn unit_in(&self, key: Key, unit: Qty) -> Option<Layer>
        ensures layer { result ≡ layer_at self.now.entering key unit.0 }
        ensures holds { IfSome result (HoldsUnit unit.0) }
        ensures none { IsNone result ↔ (units_of_key self.now.entering key ≤ unit.0) }
    {
        find_unit(&self.entering, key, unit)
    }

    /// The movement that the unit of this number left with. None exactly where no more units left than its number says.
    pub fn unit_out(&self, key: Key, unit: Qty) -> Option<Layer>
        ensures layer { result ≡ layer_at self.now.leaving key unit.0 }
        ensures holds { IfSome result (HoldsUnit unit.0) }
        ensures none { IsNone result ↔ (units_of_key self.now.leaving key ≤ unit.0) }
    {
        find_unit(&self.leaving, key, unit)
    }

    /// How many units entered before a place.
    pub fn entered_before(&self, key: Key, place: &Place) -> Qty
        ensures { result.0 ≡ units_before self.now.entering key place.now }
    {
        count_before(&self.entering, key, place)
    }

    /// How many units left before a place.
    pub fn left_before(&self, key: Key, place: &Place) -> Qty
        ensures { result.0 ≡ units_before self.now.leaving key place.now }
    {
        count_before(&self.leaving, key, place)
    }
}

// Puts a movement among those of its side.
fn put_in(units: &mut KeyOrder, entry: &Entry)
    requires leaving { AreLeaving units.old.changes }
    requires room { 0 < units.old.spare }
    requires few { length units.old.changes < 2 ^ 20 }
    requires apart { HasNoneAt units.old.changes (entry_key entry.now) entry.now.place }
    ensures leaving { AreLeaving units.new.changes }
    ensures put { units.new.changes ≡ put_change units.old.changes (leaving_change entry.now) }
    ensures room { units.old.spare ≤ units.new.spare + 1 }
{
    units.insert(Change::leaving(entry));
}

// Takes the movement at this one's place out of those of its side.
fn take_out(units: &mut KeyOrder, entry: &Entry)
    requires leaving { AreLeaving units.old.changes }
    ensures leaving { AreLeaving units.new.changes }
    ensures rest { units.new.changes ≡ without_change units.old.changes (entry_key entry.now) entry.now.place }
    ensures room { units.old.spare ≤ units.new.spare }
{
    units.remove(Change::leaving(entry).key, &entry.place);
}

// The movement of one side that holds the unit of this number: with it more units moved than the number says.
fn find_unit(units: &KeyOrder, key: Key, unit: Qty) -> Option<Layer>
    requires { AreLeaving units.now.changes }
    ensures layer { result ≡ layer_at units.now.changes key unit.0 }
    ensures holds { IfSome result (HoldsUnit unit.0) }
    ensures none { IsNone result ↔ (units_of_key units.now.changes key ≤ unit.0) }
{
    if unit.0 >= MANY_UNITS {
        return None;
    }
    match units.first_lack(key, None, None, unit.0 as i64) {
        Some(lack) => Some(layer_with(units, key, unit, lack)),
        None => None,
    }
}

// The movement with which so many units more moved than the number says.
fn layer_with(units: &KeyOrder, key: Key, unit: Qty, lack: Lack) -> Layer
    requires leaving { AreLeaving units.now.changes }
    requires few { unit.0 < MANY_UNITS }
    requires found { first_lack units.now.changes key None None (pos unit.0) ≡ Some lack }
    ensures { Some result ≡ layer_at units.now.changes key unit.0 }
{
    let begin = count_before(units, key, &lack.place);
    Layer {
        place: lack.place,
        begin,
        qty: Qty(unit.0 + lack.lacking.0 - begin.0),
    }
}

// How many units of one side moved before a place.
fn count_before(units: &KeyOrder, key: Key, place: &Place) -> Qty
    requires { AreLeaving units.now.changes }
    ensures { result.0 ≡ units_before units.now.changes key place.now }
{
    Qty(units.held_before(key, place).unsigned_abs())
}
