//! Where the movements stand that a valuation looks at, and that it makes look again.
ghost use Rattle.std.specs.Prelude.{◌≡◌, ◌+◌, ◌<◌, ◌≤◌, ◌^◌, ◌↔◌, ◌&&◌, List, [], length, min, max, Contains, Some, IsNone, IfSome, OnOk};
ghost use Rattle.std.specs.List.{find};
ghost use Rattle.std.specs.Option.{option_map};
ghost use Rattle.stock_nums.specs.Places.{is_before};
ghost use Rattle.stock_nums.specs.declared.limits.TheConstants.{MAX_RECORDS};
ghost use Rattle.stock_model.specs.Enough.{entry_key, is_of_key, entered, departed};
ghost use Rattle.stock_model.specs.PostingOrder.{put};
ghost use Rattle.stock_model.specs.Values.{own_line};
ghost use Rattle.cost_links.specs.Sources.{entry_place};
ghost use Rattle.posting_order.specs.Timelines.{without};
ghost use Rattle.repost_laws.specs.Ranges.{units_in_before, units_out_before};
ghost use Rattle.repost_laws.specs.Touched.{next_of_key};
ghost use Rattle.repost_laws.specs.Valuations.{earlier, last_of_key};
ghost use Rattle.repost_index.specs.Indexed.{AreIndexed, CanBeIndexed, HasNoMoreRoom, HasRoom};
ghost use Rattle.repost_index.specs.Layers.{IsLayerIn, IsLayerOut};
ghost use Rattle.repost_index.specs.Moments.{IsPlaceOf};

use crate::moments::{keep, reserve};
use key_order::change::Change;
use key_order::order::KeyOrder;
use layer_ranges::layer::Layer;
use layer_ranges::ranges::Ranges;
use std::alloc::Global;
use std::marker::Model;
use stock_nums::cause::Target;
use stock_nums::entry::{Entry, Key};
use stock_nums::memory::NoMemory;
use stock_nums::moment::Moment;
use stock_nums::numbers::Qty;
use stock_nums::place::{Place, Side};

/// How movements are found by item and warehouse, by the numbers of their units, and by their lines. It holds none: contracts
/// tell it of `line`, the movements in posting order, at most 2^20 of them.
#[derive(Drop)]
pub struct Index {
    /// What each movement changes, by item and warehouse and then in posting order.
    keys: KeyOrder,
    /// The units that entered and that left, by their numbers.
    ranges: Ranges,
    /// The moment of each record, by its number less 1. For a record with no movements it is any moment.
    moments: Vec<Moment>,
}

impl Model for Index {
    ghost use Rattle.std.specs.Prelude.{◌-◌, vec_len, vec_capacity};
    ghost use Rattle.repost_index.specs.IndexState.{IndexState};

    ghost Value = { IndexState };

    ghost view = { λ index.
        record {
          keys = index.keys.changes;
          entering = index.ranges.entering;
          leaving = index.ranges.leaving;
          moments = index.moments.items;
          keys_spare = index.keys.spare;
          entering_spare = index.ranges.entering_spare;
          leaving_spare = index.ranges.leaving_spare;
          dates_spare = vec_capacity index.moments - vec_len index.moments;
        } };
}

impl Index {
    /// Of no movement. It takes no memory.
    pub fn new(alloc: Global) -> Index
        ensures { AreIndexed [] result }
    {
        Index {
            keys: KeyOrder::new(alloc),
            ranges: Ranges::new(alloc),
            moments: Vec::new(alloc),
        }
    }

    /// Makes room for `n` more movements, and for the moments of all records that there may be, and of no more. What is found
    /// stays, and no room is lost.
    ///
    /// # Errors
    ///
    /// `NoMemory`: memory was wanting, and there may be more room than before.
    pub fn reserve(&mut self, n: usize) -> Result<(), NoMemory>
        ensures room { OnOk result (HasRoom n self.new) }
        ensures keys { self.new.keys ≡ self.old.keys }
        ensures entering { self.new.entering ≡ self.old.entering }
        ensures leaving { self.new.leaving ≡ self.old.leaving }
        ensures moments { self.new.moments ≡ self.old.moments }
        ensures keys_room_stays { self.old.keys_spare ≤ self.new.keys_spare }
        ensures entering_room_stays { self.old.entering_spare ≤ self.new.entering_spare }
        ensures leaving_room_stays { self.old.leaving_spare ≤ self.new.leaving_spare }
        ensures dates_room_stays { self.old.dates_spare ≤ self.new.dates_spare }
        ensures dates_room { length self.new.moments + self.new.dates_spare
            ≤ max (length self.old.moments + self.old.dates_spare) MAX_RECORDS }
    {
        self.keys.reserve(n)?;
        self.ranges.reserve(n)?;
        reserve(&mut self.moments)
    }

    /// Gives the room back that no movement stands in: for at most 128 more some is left. What is found stays, and the room for
    /// moments does. It takes no memory.
    pub fn release(&mut self)
        ensures keys { self.new.keys ≡ self.old.keys }
        ensures entering { self.new.entering ≡ self.old.entering }
        ensures leaving { self.new.leaving ≡ self.old.leaving }
        ensures moments { self.new.moments ≡ self.old.moments }
        ensures released { HasNoMoreRoom 128 self.new }
        ensures keys_room { min 2 self.old.keys_spare ≤ self.new.keys_spare }
        ensures entering_room { min 2 self.old.entering_spare ≤ self.new.entering_spare }
        ensures leaving_room { min 2 self.old.leaving_spare ≤ self.new.leaving_spare }
        ensures dates_room { self.new.dates_spare ≡ self.old.dates_spare }
    {
        self.keys.release();
        self.ranges.release();
    }

    /// Makes a movement of the line be found, which is new to it. It takes no memory.
    pub fn insert(&mut self, entry: &Entry)
        ghost line: { List Entry }
        requires indexed { AreIndexed line self.old }
        requires can { CanBeIndexed line entry.now }
        requires few { length line < 2 ^ 20 }
        requires room { HasRoom 1 self.old }
        ensures indexed { AreIndexed (put line entry.now) self.new }
        ensures keys_room { self.old.keys_spare ≤ self.new.keys_spare + 1 }
        ensures entering_room { self.old.entering_spare ≤ self.new.entering_spare + 1 }
        ensures leaving_room { self.old.leaving_spare ≤ self.new.leaving_spare + 1 }
        ensures dates_room { MAX_RECORDS ≤ length self.new.moments + self.new.dates_spare }
    {
        self.keys.insert(Change::of(entry));
        self.ranges.insert(entry);
        keep(&mut self.moments, entry.place.voucher, entry.place.moment);
    }

    /// Makes a movement of the line be found no longer. No room is lost, and the moments of records stay. It takes no memory.
    pub fn remove(&mut self, entry: &Entry)
        ghost line: { List Entry }
        requires indexed { AreIndexed line self.old }
        requires held { Contains line entry.now }
        ensures indexed { AreIndexed (without line entry.now.place) self.new }
        ensures moments { self.new.moments ≡ self.old.moments }
        ensures keys_room { self.old.keys_spare ≤ self.new.keys_spare }
        ensures entering_room { self.old.entering_spare ≤ self.new.entering_spare }
        ensures leaving_room { self.old.leaving_spare ≤ self.new.leaving_spare }
        ensures dates_room { self.new.dates_spare ≡ self.old.dates_spare }
    {
        self.keys.remove(key_of(entry), &entry.place);
        self.ranges.remove(entry);
    }

    /// The place of the last movement of the same item in the same warehouse that comes before the movement. None exactly where
    /// none comes before it. It takes no memory.
    pub fn previous(&self, entry: &Entry) -> Option<Place>
        ghost line: { List Entry }
        requires indexed { AreIndexed line self.now }
        ensures { result ≡ option_map entry_place (last_of_key (earlier line entry.now) (entry_key entry.now)) }
    {
        self.keys.previous(key_of(entry), &entry.place)
    }

    /// The place of the first movement of the item in the warehouse that comes after the place. None exactly where none comes
    /// after it. It takes no memory.
    pub fn next(&self, key: Key, place: &Place) -> Option<Place>
        ghost line: { List Entry }
        requires indexed { AreIndexed line self.now }
        ensures first { result
            ≡ option_map entry_place (find (λ f. is_of_key key f && is_before place.now f.place) line) }
        ensures next { (g : Entry) → entry_key g ≡ key → g.place ≡ place.now
            → result ≡ option_map entry_place (next_of_key line g) }
    {
        self.keys.next(key, Some(*place))
    }

    /// How many units of its item entered its warehouse before the movement. It takes no memory.
    pub fn entered_before(&self, entry: &Entry) -> Qty
        ghost line: { List Entry }
        requires indexed { AreIndexed line self.now }
        ensures { result.0 ≡ units_in_before line entry.now }
    {
        self.ranges.entered_before(key_of(entry), &entry.place)
    }

    /// How many units of its item left its warehouse before the movement. It takes no memory.
    pub fn left_before(&self, entry: &Entry) -> Qty
        ghost line: { List Entry }
        requires indexed { AreIndexed line self.now }
        ensures { result.0 ≡ units_out_before line entry.now }
    {
        self.ranges.left_before(key_of(entry), &entry.place)
    }

    /// The movement that brought the unit of this number to the warehouse. None exactly where no more units entered than its
    /// number says. It takes no memory.
    pub fn unit_in(&self, key: Key, unit: Qty) -> Option<Layer>
        ghost line: { List Entry }
        requires indexed { AreIndexed line self.now }
        ensures layer { IfSome result (IsLayerIn line key unit.0) }
        ensures none { IsNone result ↔ (entered line key ≤ unit.0) }
    {
        self.ranges.unit_in(key, unit)
    }

    /// The movement with which the unit of this number left the warehouse. None exactly where no more units left than its number
    /// says. It takes no memory.
    pub fn unit_out(&self, key: Key, unit: Qty) -> Option<Layer>
        ghost line: { List Entry }
        requires indexed { AreIndexed line self.now }
        ensures layer { IfSome result (IsLayerOut line key unit.0) }
        ensures none { IsNone result ↔ (departed line key ≤ unit.0) }
    {
        self.ranges.unit_out(key, unit)
    }

    /// The place at which a movement of this line of a voucher on this side stands, where there is one. It takes no memory.
    pub fn place_of(&self, own: Target, side: Side) -> Option<Place>
        ghost line: { List Entry }
        requires indexed { AreIndexed line self.now }
        ensures place { (e : Entry) → Contains line e → own_line e ≡ own → e.place.side ≡ side → result ≡ Some e.place }
        ensures own { IfSome result (IsPlaceOf own side) }
    {
        if own.voucher.0 == 0 {
            return None;
        }
        match self.moments.get(own.voucher.0 as usize - 1) {
            Some(moment) => Some(Place {
                moment: *moment,
                voucher: own.voucher,
                line: own.line,
                side,
            }),
            None => None,
        }
    }
}

// The item and the warehouse of a movement.
fn key_of(entry: &Entry) -> Key
    ensures { result ≡ entry_key entry.now }
{
    Key {
        item: entry.item,
        store: entry.store,
    }
}
