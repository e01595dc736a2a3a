//! The movements of a book in posting order, and what is found in them.
ghost use Rattle.std.specs.Prelude.{◌≡◌, ◌+◌, ◌<◌, ◌≤◌, ◌^◌, [], length, take, drop, filter, unsigned_abs, None, Some, OnOk, IfOk, IfSome, IfNone};
ghost use Rattle.std.specs.Option.{option_copied};
ghost use Rattle.stock_model.specs.InOrder.{IsInPostingOrder};
ghost use Rattle.stock_model.specs.PostingOrder.{put};
ghost use Rattle.key_order.specs.Changes.{changes_of, rank_of, held_before, first_lack};
ghost use Rattle.posting_order.specs.Timelines.{entry_at, without, next_place, previous_place, IsNextPlace, IsPreviousPlace, HasNoneAfter, HasNoneBefore, is_until, count_until};

use crate::entry_line::EntryLine;
use key_order::change::{Change, Lack};
use key_order::order::KeyOrder;
use std::alloc::Global;
use std::marker::Model;
use stock_nums::entry::{Entry, Key};
use stock_nums::lines::Lines;
use stock_nums::memory::NoMemory;
use stock_nums::moment::Moment;
use stock_nums::place::Place;

/// At most 2^20 movements in posting order, at most one at a place. Contracts see the list of them, and how many more
/// fit without memory.
#[derive(Drop)]
pub struct Timeline {
    line: EntryLine,
    keys: KeyOrder,
}

impl Model for Timeline {
    ghost use Rattle.std.specs.Prelude.{min};
    ghost use Rattle.posting_order.specs.KeyLines.{ArePaired};
    ghost use Rattle.posting_order.specs.State.{TimelineState};

    ghost Value = { TimelineState };

    ghost view = { λ timeline. record { entries = timeline.line.entries; spare = min timeline.line.spare timeline.keys.spare } };

    ghost invariant = { λ timeline. ArePaired timeline.line.entries timeline.keys.changes };
}

impl Timeline {
    /// No movement. It takes no memory.
    pub fn new(alloc: Global) -> Timeline
        ensures { result.entries ≡ [] }
    {
        Timeline {
            line: EntryLine::new(alloc),
            keys: KeyOrder::new(alloc),
        }
    }

    /// Makes room for `n` more movements. The movements stay as they are, and no room is lost.
    pub fn reserve(&mut self, n: usize) -> Result<(), NoMemory>
        ensures room { OnOk result (n ≤ self.new.spare) }
        ensures unchanged { self.new.entries ≡ self.old.entries }
        ensures room_stays { self.old.spare ≤ self.new.spare }
    {
        self.line.reserve(n)?;
        self.keys.reserve(n)
    }

    /// How many movements there are.
    pub fn len(&self) -> usize
        ensures { result ≡ length self.now.entries }
    {
        self.line.len()
    }

    /// The movements from an index on that stand side by side: to walk over all, go on after them.
    pub fn run_from(&self, index: usize) -> &[Entry]
        requires { index < length self.now.entries }
        ensures some { 0 < length result.now }
        ensures entries { result.now ≡ take (length result.now) (drop index self.now.entries) }
    {
        self.line.run_from(index)
    }

    /// A copy of the movements in posting order.
    pub fn to_lines(&self, alloc: Global) -> Result<Lines<Entry>, NoMemory>
        ensures entries { IfOk result (λ all. all ≡ self.now.entries) }
        ensures in_order { IsInPostingOrder self.now.entries }
    {
        self.line.to_lines(alloc)
    }

    /// Puts a movement in, at a place where there is none. It takes no memory.
    pub fn insert(&mut self, entry: Entry)
        requires room { 0 < self.old.spare }
        requires few { length self.old.entries < 2 ^ 20 }
        requires apart { entry_at self.old.entries entry.place ≡ None }
        ensures put { self.new.entries ≡ put self.old.entries entry }
        ensures room { self.old.spare ≤ self.new.spare + 1 }
    {
        self.keys.insert(Change::of(&entry));
        self.line.insert(entry);
    }

    /// Takes the movement at this place out, if there is one. No room is lost. It takes no memory.
    pub fn remove(&mut self, place: &Place) -> Option<Entry>
        ensures taken { result ≡ entry_at self.old.entries place.now }
        ensures rest { self.new.entries ≡ without self.old.entries place.now }
        ensures room { self.old.spare ≤ self.new.spare }
    {
        let taken = self.line.remove(place);
        if let Some(entry) = taken {
            self.keys.remove(Change::of(&entry).key, place);
        }
        taken
    }

    /// The movement at this place. None exactly where there is none. It takes no memory.
    pub fn get(&self, place: &Place) -> Option<&Entry>
        ensures found { option_copied result ≡ entry_at self.now.entries place.now }
        ensures place { IfSome (option_copied result) (λ e. e.place ≡ place.now) }
    {
        self.line.get(place)
    }

    /// The place of the first movement of this item in this warehouse that comes after the place. None
    /// exactly where none comes after it. It takes no memory.
    pub fn next_of_key(&self, key: Key, place: &Place) -> Option<Place>
        ensures value { result ≡ next_place self.now.entries key place.now }
        ensures next { IfSome result (IsNextPlace self.now.entries key place.now) }
        ensures last { IfNone result (HasNoneAfter self.now.entries key place.now) }
    {
        self.keys.next(key, Some(*place))
    }

    /// The place of the last movement of this item in this warehouse that comes before the place. None
    /// exactly where none comes before it. It takes no memory.
    pub fn prev_of_key(&self, key: Key, place: &Place) -> Option<Place>
        ensures value { result ≡ previous_place self.now.entries key place.now }
        ensures previous { IfSome result (IsPreviousPlace self.now.entries key place.now) }
        ensures first { IfNone result (HasNoneBefore self.now.entries key place.now) }
    {
        self.keys.previous(key, place)
    }

    /// How many movements of this item in this warehouse come before the place. It takes no memory.
    pub fn rank_of_key(&self, key: Key, place: &Place) -> usize
        ensures { result ≡ rank_of (changes_of self.now.entries) key place.now }
    {
        self.keys.rank(key, place)
    }

    /// How many units of this item this warehouse holds just before the place. It takes no memory.
    pub fn held_before(&self, key: Key, place: &Place) -> i64
        ensures value { result ≡ held_before (changes_of self.now.entries) key place.now }
        ensures bound { unsigned_abs result ≤ 2 ^ 53 }
    {
        self.keys.held_before(key, place)
    }

    /// The first movement of this item in this warehouse, after a place and before an end, with which units would be lacking
    /// if so many more were held. It takes no memory.
    pub fn first_lack(&self, key: Key, from: &Place, end: Option<Place>, more: i64) -> Option<Lack>
        requires bound { unsigned_abs more ≤ 2 ^ 53 }
        ensures { result ≡ first_lack (changes_of self.now.entries) key (Some from.now) end more }
    {
        self.keys.first_lack(key, Some(*from), end, more)
    }

    /// How many movements have a moment that is not after this one. They are the first ones. It takes no
    /// memory.
    pub fn until(&self, moment: Moment) -> usize
        ensures count { result ≡ count_until self.now.entries moment }
        ensures first_ones { take result self.now.entries ≡ filter (is_until moment) self.now.entries }
    {
        self.line.until(moment)
    }
}
