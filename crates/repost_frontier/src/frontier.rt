//! Movements in posting order, found by their places, with the first suspect found at once.
ghost use Rattle.std.specs.Prelude.{◌≡◌, ◌+◌, ◌<◌, ◌≤◌, ◌^◌, [], List, Some, None, length, take, drop, map, min, position, remove, slice_get, MatchOption, IfSome, OnOk};
ghost use Rattle.std.specs.List.{find};
ghost use Rattle.std.specs.Option.{option_copied};
ghost use Rattle.stock_model.specs.InOrder.{IsInPostingOrder};
ghost use Rattle.stock_model.specs.PostingOrder.{put};
ghost use Rattle.repost_frontier.specs.Slots.{slot_entry, slot_at, is_slot_at, put_slot, slots_without, new_slot, marks, with_value, is_suspect, is_revalued, as_published, published_until};

use crate::slot::Slot;
use block_list::bound::Bound;
use block_list::change::Change;
use block_list::crossing::Crossing;
use block_list::list::BlockList;
use block_list::weigh::Weigh;
use cost_links::values::Valued;
use std::alloc::Global;
use std::marker::Model;
use stock_nums::entry::Entry;
use stock_nums::memory::NoMemory;
use stock_nums::place::Place;

/// That a suspect counts 1 less than nothing, and so a sum falls below 0 at the first.
#[derive(Drop)]
struct Suspect;

impl Weigh<Slot> for Suspect {
    ghost use Rattle.repost_frontier.specs.Slots.{suspect_weight};

    ghost weight = { suspect_weight };

    fn weight(item: &Slot) -> i64 {
        if item.is_suspect { -1 } else { 0 }
    }
}

/// The movements that come before a place are above it.
#[derive(Clone, Copy)]
struct Before {
    place: Place,
}

impl Bound<Slot> for Before {
    ghost use Rattle.repost_frontier.specs.Slots.{slot_comes_before};

    ghost above = { λ bound slot. slot_comes_before bound.place slot };

    fn is_above(&self, slot: &Slot) -> bool {
        slot.entry.place.is_before(&self.place)
    }
}

/// The movements that do not come after a place are above it.
#[derive(Clone, Copy)]
struct NotAfter {
    place: Place,
}

impl Bound<Slot> for NotAfter {
    ghost use Rattle.std.specs.Prelude.{not};
    ghost use Rattle.repost_frontier.specs.Slots.{slot_comes_after};

    ghost above = { λ bound slot. not (slot_comes_after bound.place slot) };

    fn is_above(&self, slot: &Slot) -> bool {
        !self.place.is_before(&slot.entry.place)
    }
}

/// The movement that stands at a place becomes suspect, unless it is.
#[derive(Clone, Copy)]
struct Mark {
    place: Place,
}

impl Change<Slot> for Mark {
    ghost use Rattle.repost_frontier.specs.Slots.{mark_change};

    ghost changed = { λ mark slot. mark_change mark.place slot };

    fn change(&self, slot: &Slot) -> Option<Slot> {
        if is_slot_at(slot, &self.place) && !slot.is_suspect {
            Some(slot.marked())
        } else {
            None
        }
    }
}

/// This was found of the movement that stands at a place.
#[derive(Clone, Copy)]
struct Finding {
    place: Place,
    found: Valued,
}

impl Change<Slot> for Finding {
    ghost use Rattle.repost_frontier.specs.Slots.{value_change};

    ghost changed = { λ finding slot. value_change finding.place finding.found slot };

    fn change(&self, slot: &Slot) -> Option<Slot> {
        if is_slot_at(slot, &self.place) {
            Some(slot.with_found(self.found))
        } else {
            None
        }
    }
}

/// Movements in posting order, at most one at a place and at most 2^20, each with what was last found of it. Contracts see the
/// list of them, and how many more fit without memory.
#[derive(Drop)]
pub struct Frontier {
    list: BlockList<Slot, Suspect>,
}

impl Model for Frontier {
    ghost use Rattle.std.specs.Prelude.{map};
    ghost use Rattle.stock_model.specs.InOrder.{IsInPostingOrder};
    ghost use Rattle.repost_frontier.specs.FrontierState.{FrontierState};
    ghost use Rattle.repost_frontier.specs.Slots.{slot_entry};

    ghost Value = { FrontierState };

    ghost view = { λ frontier. record { slots = frontier.list.items; spare = frontier.list.spare } };

    ghost invariant = { λ frontier. IsInPostingOrder (map slot_entry frontier.list.items) };
}

impl Frontier {
    /// No movement. It takes no memory.
    pub fn new(alloc: Global) -> Frontier
        ensures { result.slots ≡ [] }
    {
        Frontier {
            list: BlockList::new(alloc),
        }
    }

    /// How many movements there are.
    pub fn len(&self) -> usize
        ensures { result ≡ length self.now.slots }
    {
        self.list.len()
    }

    /// Makes room for `n` more movements. The movements stay as they are, and no room is lost.
    ///
    /// # Errors
    ///
    /// `NoMemory`: memory was wanting, and there may be more room than before.
    pub fn reserve(&mut self, n: usize) -> Result<(), NoMemory>
        ensures room { OnOk result (n ≤ self.new.spare) }
        ensures unchanged { self.new.slots ≡ self.old.slots }
        ensures room_stays { self.old.spare ≤ self.new.spare }
    {
        self.list.reserve(n)
    }

    /// Gives the room back that nothing stands in: for at most 128 more movements some is left. The movements stay as they are.
    /// It takes no memory.
    pub fn release(&mut self)
        ensures unchanged { self.new.slots ≡ self.old.slots }
        ensures released { self.new.spare ≤ 128 }
        ensures room { min 2 self.old.spare ≤ self.new.spare }
    {
        self.list.release();
    }

    /// Puts a movement in that was never valued, and so is suspect, at a place where there is none. It takes no memory.
    pub fn insert(&mut self, entry: Entry)
        requires room { 0 < self.old.spare }
        requires few { length self.old.slots < 2 ^ 20 }
        requires apart { slot_at self.old.slots entry.place ≡ None }
        ensures put { self.new.slots ≡ put_slot self.old.slots (new_slot entry) }
        ensures entries { map slot_entry self.new.slots ≡ put (map slot_entry self.old.slots) entry }
        ensures in_order { IsInPostingOrder (map slot_entry self.new.slots) }
        ensures room { self.old.spare ≤ self.new.spare + 1 }
    {
        let bound = NotAfter { place: entry.place };
        self.list.insert_before(&bound, Slot::new(entry));
    }

    /// Takes the movement at this place out, if there is one, with what was found of it. The others stay as they are, and no
    /// room is lost. It takes no memory.
    pub fn remove(&mut self, place: &Place) -> Option<Slot>
        ensures taken { result ≡ slot_at self.old.slots place.now }
        ensures rest { self.new.slots ≡ slots_without self.old.slots place.now }
        ensures in_order { IsInPostingOrder (map slot_entry self.new.slots) }
        ensures room { self.old.spare ≤ self.new.spare }
    {
        let index = index_of(&self.list, place)?;
        Some(self.list.remove(index))
    }

    /// The movement at this place. None exactly where there is none. It takes no memory.
    pub fn get(&self, place: &Place) -> Option<&Slot>
        ensures found { option_copied result ≡ slot_at self.now.slots place.now }
        ensures place { IfSome (option_copied result) (λ s. s.entry.place ≡ place.now) }
        ensures in_order { IsInPostingOrder (map slot_entry self.now.slots) }
    {
        standing_at(&self.list, place)
    }

    /// Makes the movement at this place suspect, if there is one. It takes no memory.
    pub fn mark(&mut self, place: &Place)
        ensures marked { self.new.slots ≡ marks self.old.slots place.now }
        ensures room { self.new.spare ≡ self.old.spare }
    {
        let place = *place;
        self.list
            .update_first_from(&Before { place }, &Mark { place });
    }

    /// Tells what was found of the movement at this place, if there is one: it is suspect no longer, and was valued since the
    /// last publication. It takes no memory.
    pub fn value(&mut self, place: &Place, found: Valued)
        ensures valued { self.new.slots ≡ with_value self.old.slots place.now found }
        ensures room { self.new.spare ≡ self.old.spare }
    {
        let place = *place;
        self.list
            .update_first_from(&Before { place }, &Finding { place, found });
    }

    /// The first suspect. None exactly where there is none. It takes no memory.
    pub fn first(&self) -> Option<&Slot>
        ensures first { option_copied result ≡ find is_suspect self.now.slots }
        ensures in_order { IsInPostingOrder (map slot_entry self.now.slots) }
    {
        let start = Crossing {
            index: 0,
            before: 0,
        };
        let found = self.list.first_below(start, self.list.len());
        self.list.get(found.index)
    }

    /// The movements from an index on that stand side by side: to walk over all, go on after them.
    pub fn run_from(&self, index: usize) -> &[Slot]
        requires { index < length self.now.slots }
        ensures some { 0 < length result.now }
        ensures slots { result.now ≡ take (length result.now) (drop index self.now.slots) }
    {
        self.list.run_from(index)
    }

    /// Forgets which movements were valued: from now on those are told that are valued after this. It takes no memory.
    pub fn forget_revalued(&mut self)
        ensures published { self.new.slots ≡ map as_published self.old.slots }
        ensures room { self.new.spare ≡ self.old.spare }
    {
        let mut index = 0;
        while index < self.list.len() {
            index = forget_next(&mut self.list, index);
        }
    }
}

// The movement at the place, or None where there is none. It is the first that does not come before the place.
fn standing_at<'a>(list: &'a BlockList<Slot, Suspect>, place: &Place) -> Option<&'a Slot>
    requires { IsInPostingOrder (map slot_entry list.now.items) }
    ensures { option_copied result ≡ slot_at list.now.items place.now }
{
    let slot = list.first_from(&Before { place: *place })?;
    if is_slot_at(slot, place) {
        Some(slot)
    } else {
        None
    }
}

// Where the movement at the place stands, or None where there is none.
fn index_of(list: &BlockList<Slot, Suspect>, place: &Place) -> Option<usize>
    requires { IsInPostingOrder (map slot_entry list.now.items) }
    ensures found { MatchOption result (slot_at list.now.items place.now ≡ None)
        (λ index. (index < length list.now.items) × (slot_at list.now.items place.now ≡ slice_get list.now.items index)) }
    ensures rest { MatchOption result (slots_without list.now.items place.now ≡ list.now.items)
        (λ index. slots_without list.now.items place.now ≡ remove list.now.items index) }
{
    let index = list.partition_point(&Before { place: *place });
    match list.get(index) {
        Some(slot) => {
            if is_slot_at(slot, place) {
                Some(index)
            } else {
                None
            }
        }
        None => None,
    }
}

// Whether the movement stands at the place.
fn is_slot_at(slot: &Slot, place: &Place) -> bool
    ensures { result ≡ is_slot_at place.now slot.now }
{
    slot.entry.place == *place
}

// Forgets that a movement was valued: the first one that was among those side by side from an index on, before which all are
// forgotten. How many then are.
fn forget_next(list: &mut BlockList<Slot, Suspect>, index: usize) -> usize
    requires within { index < length list.old.items }
    requires few { length list.old.items < 2 ^ 64 }
    ensures onward { index < result }
    ensures within { result ≤ length list.old.items }
    ensures slots { (slots : List Slot) → list.old.items ≡ published_until slots index → list.new.items ≡ published_until slots result }
    ensures room { list.new.spare ≡ list.old.spare }
{
    let run = list.run_from(index);
    match first_revalued(run) {
        Some(ahead) => {
            let slot = run[ahead].as_published();
            list.set(index + ahead, slot);
            index + ahead + 1
        }
        None => index + run.len(),
    }
}

// Where the first stands that was valued.
fn first_revalued(run: &[Slot]) -> Option<usize>
    ensures { result ≡ position is_revalued run.now }
{
    run.iter().position(|slot| slot.is_revalued)
}
