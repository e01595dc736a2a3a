//! Movements in posting order, found by their places.
ghost use Rattle.std.specs.Prelude.{◌≡◌, ◌+◌, ◌<◌, ◌≤◌, ◌^◌, [], length, take, drop, slice_get, filter, remove, None, MatchOption, OnOk, IfOk, IfSome};
ghost use Rattle.std.specs.Option.{option_copied};
ghost use Rattle.stock_nums.specs.Places.{is_later};
ghost use Rattle.stock_model.specs.InOrder.{IsInPostingOrder};
ghost use Rattle.stock_model.specs.PostingOrder.{put};
ghost use Rattle.posting_order.specs.Timelines.{is_at, entry_at, without, comes_before, is_until, count_until};

use block_list::bound::Bound;
use block_list::list::BlockList;
use block_list::weigh::Weigh;
use std::alloc::Global;
use std::marker::Model;
use stock_nums::entry::Entry;
use stock_nums::lines::Lines;
use stock_nums::memory::NoMemory;
use stock_nums::moment::Moment;
use stock_nums::place::Place;

/// No movement counts anything.
pub(crate) struct Uncounted;

impl Weigh<Entry> for Uncounted {
    ghost use Rattle.std.specs.Prelude.{pos};

    ghost weight = { λ e. pos 0 };

    fn weight(item: &Entry) -> i64 {
        0
    }
}

/// The movements that come before a place are above it.
#[derive(Clone, Copy)]
struct Before {
    place: Place,
}

impl Bound<Entry> for Before {
    ghost use Rattle.posting_order.specs.Timelines.{comes_before};

    ghost above = { λ bound entry. comes_before bound.place entry };

    fn is_above(&self, entry: &Entry) -> bool {
        entry.place.is_before(&self.place)
    }
}

/// The movements that do not come after a place are above it.
#[derive(Clone, Copy)]
struct NotAfter {
    place: Place,
}

impl Bound<Entry> for NotAfter {
    ghost use Rattle.std.specs.Prelude.{not};
    ghost use Rattle.posting_order.specs.Timelines.{comes_after};

    ghost above = { λ bound entry. not (comes_after bound.place entry) };

    fn is_above(&self, entry: &Entry) -> bool {
        !self.place.is_before(&entry.place)
    }
}

/// The movements whose moment is not after this one are above it.
#[derive(Clone, Copy)]
struct UpTo {
    moment: Moment,
}

impl Bound<Entry> for UpTo {
    ghost use Rattle.posting_order.specs.Timelines.{is_until};

    ghost above = { λ bound entry. is_until bound.moment entry };

    fn is_above(&self, entry: &Entry) -> bool {
        !is_later(entry.place.moment, self.moment)
    }
}

/// Movements in posting order, at most one at a place. Contracts see the list of them, and how many more fit
/// without memory.
#[derive(Drop)]
pub(crate) struct EntryLine {
    list: BlockList<Entry, Uncounted>,
}

impl Model for EntryLine {
    ghost use Rattle.stock_model.specs.InOrder.{IsInPostingOrder};
    ghost use Rattle.posting_order.specs.State.{TimelineState};

    ghost Value = { TimelineState };

    ghost view = { λ line. record { entries = line.list.items; spare = line.list.spare } };

    ghost invariant = { λ line. IsInPostingOrder line.list.items };
}

impl EntryLine {
    /// No movement. It takes no memory.
    pub fn new(alloc: Global) -> EntryLine
        ensures { result.entries ≡ [] }
    {
        EntryLine {
            list: BlockList::new(alloc),
        }
    }

    /// Makes room for `n` more movements. The movements stay as they are, and no room is lost.
    pub fn reserve(&mut self, n: usize) -> Result<(), NoMemory>
        ensures room { OnOk result (n ≤ self.new.spare) }
        ensures unchanged { self.new.entries ≡ self.old.entries }
        ensures room_stays { self.old.spare ≤ self.new.spare }
    {
        self.list.reserve(n)
    }

    /// How many movements there are.
    pub fn len(&self) -> usize
        ensures { result ≡ length self.now.entries }
    {
        self.list.len()
    }

    /// The movements from an index on that stand side by side.
    pub fn run_from(&self, index: usize) -> &[Entry]
        requires { index < length self.now.entries }
        ensures some { 0 < length result.now }
        ensures entries { result.now ≡ take (length result.now) (drop index self.now.entries) }
    {
        self.list.run_from(index)
    }

    /// Puts a movement in, at a place where there is none. It takes no memory.
    pub fn insert(&mut self, entry: Entry)
        requires room { 0 < self.old.spare }
        requires few { length self.old.entries < 2 ^ 20 }
        requires apart { entry_at self.old.entries entry.place ≡ None }
        ensures put { self.new.entries ≡ put self.old.entries entry }
        ensures in_order { IsInPostingOrder self.new.entries }
        ensures room { self.old.spare ≤ self.new.spare + 1 }
    {
        let bound = NotAfter { place: entry.place };
        self.list.insert_before(&bound, entry);
    }

    /// Takes the movement at this place out, if there is one. No room is lost. It takes no memory.
    pub fn remove(&mut self, place: &Place) -> Option<Entry>
        ensures taken { result ≡ entry_at self.old.entries place.now }
        ensures rest { self.new.entries ≡ without self.old.entries place.now }
        ensures in_order { IsInPostingOrder self.new.entries }
        ensures room { self.old.spare ≤ self.new.spare }
    {
        let index = index_of(&self.list, place)?;
        Some(self.list.remove(index))
    }

    /// The movement at this place. None exactly where there is none. It takes no memory.
    pub fn get(&self, place: &Place) -> Option<&Entry>
        ensures found { option_copied result ≡ entry_at self.now.entries place.now }
        ensures place { IfSome (option_copied result) (λ e. e.place ≡ place.now) }
    {
        let index = index_of(&self.list, place)?;
        self.list.get(index)
    }

    /// How many movements have a moment that is not after this one. They are the first ones. It takes no memory.
    pub fn until(&self, moment: Moment) -> usize
        ensures count { result ≡ count_until self.now.entries moment }
        ensures first_ones { take result self.now.entries ≡ filter (is_until moment) self.now.entries }
    {
        self.list.partition_point(&UpTo { moment })
    }

    /// A copy of the movements in posting order.
    pub fn to_lines(&self, alloc: Global) -> Result<Lines<Entry>, NoMemory>
        ensures { IfOk result (λ all. all ≡ self.now.entries) }
    {
        let mut all = Vec::new(alloc);
        while all.len() < self.list.len() {
            all.extend_from_slice(self.list.run_from(all.len()))?;
        }
        Ok(Lines::from_vec(all))
    }
}

// How many movements come before the place.
fn count_before(list: &BlockList<Entry, Uncounted>, place: &Place) -> usize
    requires { IsInPostingOrder list.now.items }
    ensures count { result ≡ length (filter (comes_before place.now) list.now.items) }
    ensures within { result ≤ length list.now.items }
{
    list.partition_point(&Before { place: *place })
}

// Where the movement at the place stands, or None where there is none.
fn index_of(list: &BlockList<Entry, Uncounted>, place: &Place) -> Option<usize>
    requires { IsInPostingOrder list.now.items }
    ensures found { MatchOption result (entry_at list.now.items place.now ≡ None) (λ index. (index < length list.now.items) × (entry_at list.now.items place.now ≡ slice_get list.now.items index)) }
    ensures rest { MatchOption result (without list.now.items place.now ≡ list.now.items) (λ index. without list.now.items place.now ≡ remove list.now.items index) }
{
    let index = count_before(list, place);
    match list.get(index) {
        Some(entry) => {
            if is_at(entry, place) {
                Some(index)
            } else {
                None
            }
        }
        None => None,
    }
}

// Whether the movement stands at the place.
fn is_at(entry: &Entry, place: &Place) -> bool
    ensures { result ≡ is_at place.now entry.now }
{
    entry.place == *place
}

// Whether the first moment is after the second.
fn is_later(a: Moment, b: Moment) -> bool
    ensures { result ≡ is_later a b }
{
    a > b
}
