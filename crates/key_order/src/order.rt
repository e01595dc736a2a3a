//! The changes of what is held, of each item in each warehouse, and what is found among those of one.
ghost use Rattle.std.specs.Prelude.{◌≡◌, ◌+◌, ◌<◌, ◌≤◌, ◌^◌, ◌+ℤ◌, ◌-ℤ◌, ℕ, [], length, take, min, slice_get, true, false, Some, unsigned_abs, OnOk};
ghost use Rattle.std.specs.List.Sorted.{IsPartitionPoint};
ghost use Rattle.std.specs.Option.{option_copied, option_map};
ghost use Rattle.block_list.specs.Sums.{total};
ghost use Rattle.key_order.specs.Changes.{change_units, next_change, previous_change, rank_of, held_before, first_lack};
ghost use Rattle.key_order.specs.KeyBounds.{is_before_key, is_before_end_of, is_up_to_start_of, place_of_key, is_some_at, lack_with};
ghost use Rattle.key_order.specs.KeyOrders.{AreInKeyOrder, HasNoneAt, put_change, without_change};
ghost use Rattle.key_order.specs.SamePlace.{is_same_place};

use crate::change::{Change, Lack};
use crate::key_bounds::{Before, BeforeKey, UpTo, UpToKey, is_same_key};
use block_list::crossing::Crossing;
use block_list::list::BlockList;
use block_list::weigh::Weigh;
use std::alloc::Global;
use std::marker::Model;
use stock_nums::entry::Key;
use stock_nums::memory::NoMemory;
use stock_nums::numbers::Qty;
use stock_nums::place::Place;

/// That a change counts the units that are held more with it.
#[derive(Drop)]
struct Units;

impl Weigh<Change> for Units {
    ghost use Rattle.key_order.specs.Changes.{change_units};

    ghost weight = { change_units };

    fn weight(item: &Change) -> i64 {
        i64::from(item.units)
    }
}

/// Changes by item and warehouse, and then in posting order, at most one of an item in a warehouse at a place. Contracts see the
/// list of them, and how many more fit without memory.
#[derive(Drop)]
pub struct KeyOrder {
    changes: BlockList<Change, Units>,
}

impl Model for KeyOrder {
    ghost use Rattle.std.specs.Prelude.{◌≤◌, ◌^◌, length};
    ghost use Rattle.key_order.specs.KeyOrders.{AreInKeyOrder};
    ghost use Rattle.key_order.specs.KeyOrderState.{KeyOrderState};

    ghost Value = { KeyOrderState };

    ghost view = { λ order. record { changes = order.changes.items; spare = order.changes.spare } };

    ghost invariant = { λ order. (AreInKeyOrder order.changes.items) × (length order.changes.items ≤ 2 ^ 20) };
}

impl KeyOrder {
    /// No change. It takes no memory.
    pub fn new(alloc: Global) -> KeyOrder
        ensures { result.changes ≡ [] }
    {
        KeyOrder {
            changes: BlockList::new(alloc),
        }
    }

    /// How many changes there are.
    pub fn len(&self) -> usize
        ensures { result ≡ length self.now.changes }
    {
        self.changes.len()
    }

    /// Makes room for `n` more changes. The changes stay as they are, and no room is lost.
    pub fn reserve(&mut self, n: usize) -> Result<(), NoMemory>
        ensures room { OnOk result (n ≤ self.new.spare) }
        ensures unchanged { self.new.changes ≡ self.old.changes }
        ensures room_stays { self.old.spare ≤ self.new.spare }
    {
        self.changes.reserve(n)
    }

    /// Gives the room back that nothing stands in: for at most 128 more changes some is left. The changes stay as they are. It
    /// takes no memory.
    pub fn release(&mut self)
        ensures unchanged { self.new.changes ≡ self.old.changes }
        ensures released { self.new.spare ≤ 128 }
        ensures room { min 2 self.old.spare ≤ self.new.spare }
    {
        self.changes.release();
    }

    /// Puts a change in, where none of its item in its warehouse stands at its place. It takes no memory.
    pub fn insert(&mut self, change: Change)
        requires room { 0 < self.old.spare }
        requires few { length self.old.changes < 2 ^ 20 }
        requires apart { HasNoneAt self.old.changes change.key change.place }
        ensures in_order { AreInKeyOrder self.old.changes }
        ensures put { self.new.changes ≡ put_change self.old.changes change }
        ensures room { self.old.spare ≤ self.new.spare + 1 }
    {
        let bound = Before {
            key: change.key,
            place: change.place,
        };
        self.changes.insert_before(&bound, change);
    }

    /// Takes the change of this item in this warehouse at this place out, if there is one. No room is lost. It takes no memory.
    pub fn remove(&mut self, key: Key, place: &Place)
        ensures rest { self.new.changes ≡ without_change self.old.changes key place.now }
        ensures room { self.old.spare ≤ self.new.spare }
    {
        let bound = Before { key, place: *place };
        if is_at(self.changes.first_from(&bound), &bound) {
            let index = self.changes.partition_point(&bound);
            self.changes.remove(index);
        }
    }

    /// The place of the first change of the key that comes after a place, or of the first of all of the key.
    pub fn next(&self, key: Key, from: Option<Place>) -> Option<Place>
        ensures { result ≡ next_change self.now.changes key from }
    {
        place_of(first_after(&self.changes, key, from), &key)
    }

    /// The place of the last change of the key that comes before the place.
    pub fn previous(&self, key: Key, place: &Place) -> Option<Place>
        ensures { result ≡ previous_change self.now.changes key place.now }
    {
        let bound = Before { key, place: *place };
        place_of(self.changes.last_before(&bound), &key)
    }

    /// How many changes of the key come before the place.
    pub fn rank(&self, key: Key, place: &Place) -> usize
        ensures { result ≡ rank_of self.now.changes key place.now }
    {
        let start = self.changes.partition_point(&BeforeKey { key });
        let end = self.changes.partition_point(&Before { key, place: *place });
        end - start
    }

    /// How many units are held of the key just before the place.
    pub fn held_before(&self, key: Key, place: &Place) -> i64
        ensures value { result ≡ held_before self.now.changes key place.now }
        ensures bound { unsigned_abs result ≤ 2 ^ 53 }
    {
        let start = self.changes.partition_point(&BeforeKey { key });
        let end = self.changes.partition_point(&Before { key, place: *place });
        sum_between(&self.changes, start, end)
    }

    /// The first lack of the key after a place and before an end, where so many units more are held. With no place it is the
    /// first before the end, and with no end the first after the place.
    pub fn first_lack(
        &self,
        key: Key,
        from: Option<Place>,
        end: Option<Place>,
        more: i64,
    ) -> Option<Lack>
        requires bound { unsigned_abs more ≤ 2 ^ 53 }
        ensures { result ≡ first_lack self.now.changes key from end more }
    {
        let first = self.changes.partition_point(&BeforeKey { key });
        let index = index_of_start(&self.changes, key, from, first);
        let last = index_of_end(&self.changes, key, end);
        if last <= index {
            return None;
        }
        let before = more_held(more, sum_between(&self.changes, first, index));
        let crossing = self.changes.first_below(Crossing { index, before }, last);
        if crossing.index < last {
            lack_at(&self.changes, crossing)
        } else {
            None
        }
    }
}

// Whether there is a change, and it stands at a place of the key.
fn is_at(change: Option<&Change>, bound: &Before) -> bool
    ensures { result ≡ is_some_at bound.now.key bound.now.place (option_copied change.entry) }
{
    match change {
        Some(change) => is_same_key(&change.key, &bound.key)
            && is_same_place(&change.place, &bound.place),
        None => false,
    }
}

// Whether the two places are one.
fn is_same_place(a: &Place, b: &Place) -> bool
    ensures { result ≡ is_same_place a.now b.now }
{
    a == b
}

// The place of the change, if there is one and it is of the key.
fn place_of(change: Option<&Change>, key: &Key) -> Option<Place>
    ensures { result ≡ place_of_key key.now (option_copied change.entry) }
{
    match change {
        Some(change) => place_in(change, key),
        None => None,
    }
}

// The place of the change, if it is of the key.
fn place_in(change: &Change, key: &Key) -> Option<Place>
    ensures { result ≡ place_of_key key.now (Some change.now) }
{
    if is_same_key(&change.key, key) {
        Some(change.place)
    } else {
        None
    }
}

// What the changes from one index up to another count.
fn sum_between(changes: &BlockList<Change, Units>, from: usize, to: usize) -> i64
    requires few { length changes.now.items ≤ 2 ^ 20 }
    requires from_in { from ≤ length changes.now.items }
    requires to_in { to ≤ length changes.now.items }
    ensures sum { result ≡ total change_units (take to changes.now.items)
        -ℤ total change_units (take from changes.now.items) }
    ensures bound { unsigned_abs result ≤ 2 ^ 52 }
{
    if from == to {
        return 0;
    }
    changes.sum_before(to) - changes.sum_before(from)
}

// Two numbers of units together.
fn more_held(more: i64, held: i64) -> i64
    requires more { unsigned_abs more ≤ 2 ^ 53 }
    requires held { unsigned_abs held ≤ 2 ^ 52 }
    ensures sum { result ≡ more +ℤ held }
    ensures bound { unsigned_abs result ≤ 2 ^ 54 }
{
    more + held
}

// The first change after those of earlier keys and those of the key up to a start.
fn first_after(changes: &BlockList<Change, Units>, key: Key, from: Option<Place>) -> Option<&Change>
    requires { AreInKeyOrder changes.now.items }
    ensures { (at : ℕ) × IsPartitionPoint (λ c. is_up_to_start_of key from c ≡ true)
        (λ c. is_up_to_start_of key from c ≡ false) changes.now.items at × (option_copied result ≡ slice_get changes.now.items at) }
{
    match from {
        Some(place) => changes.first_from(&UpTo { key, place }),
        None => changes.first_from(&BeforeKey { key }),
    }
}

// Where the changes of the key after a start begin. Those of the key begin at `first`.
fn index_of_start(
    changes: &BlockList<Change, Units>,
    key: Key,
    from: Option<Place>,
    first: usize,
) -> usize
    requires order { AreInKeyOrder changes.now.items }
    requires first_in { first ≤ length changes.now.items }
    requires first_point { IsPartitionPoint (λ c. is_before_key key c ≡ true)
        (λ c. is_before_key key c ≡ false) changes.now.items first }
    ensures within { result ≤ length changes.now.items }
    ensures point { IsPartitionPoint (λ c. is_up_to_start_of key from c ≡ true)
        (λ c. is_up_to_start_of key from c ≡ false) changes.now.items result }
{
    match from {
        Some(place) => changes.partition_point(&UpTo { key, place }),
        None => first,
    }
}

// Where the changes of the key before an end end.
fn index_of_end(changes: &BlockList<Change, Units>, key: Key, end: Option<Place>) -> usize
    requires { AreInKeyOrder changes.now.items }
    ensures within { result ≤ length changes.now.items }
    ensures point { IsPartitionPoint (λ c. is_before_end_of key end c ≡ true)
        (λ c. is_before_end_of key end c ≡ false) changes.now.items result }
{
    match end {
        Some(place) => changes.partition_point(&Before { key, place }),
        None => changes.partition_point(&UpToKey { key }),
    }
}

// The lack at the change that takes a running sum below 0.
fn lack_at(changes: &BlockList<Change, Units>, crossing: Crossing) -> Option<Lack>
    requires { unsigned_abs crossing.before ≤ 2 ^ 60 }
    ensures { result ≡ option_map (lack_with crossing.before) (slice_get changes.now.items crossing.index) }
{
    match changes.get(crossing.index) {
        Some(change) => Some(lack_with(change, crossing.before)),
        None => None,
    }
}

// The lack at a change, where it takes the units that are held before it below none.
fn lack_with(change: &Change, before: i64) -> Lack
    requires { unsigned_abs before ≤ 2 ^ 60 }
    ensures { result ≡ lack_with before change.now }
{
    Lack {
        place: change.place,
        lacking: Qty((before + Units::weight(change)).unsigned_abs()),
    }
}
