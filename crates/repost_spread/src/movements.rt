//! Movements with what was found of each, and those that look at one another.
ghost use Rattle.std.specs.Prelude.{◌≡◌, ◌+◌, ◌^◌, ◌<◌, ◌≤◌, [], ◌++◌, length, ℕ, map, take, drop, List, Contains, OnOk, OnErr};
ghost use Rattle.std.specs.List.{find};
ghost use Rattle.std.specs.Option.{option_copied};
ghost use Rattle.stock_nums.specs.declared.cause.Target.{Target};
ghost use Rattle.stock_nums.specs.declared.entry.Entry.{Entry};
ghost use Rattle.stock_model.specs.InOrder.{IsInPostingOrder};
ghost use Rattle.stock_model.specs.PostingOrder.{put, put_all};
ghost use Rattle.quantity_check.specs.OwnPlaces.{HaveOwnPlaces};
ghost use Rattle.cost_links.specs.Charged.{charge_pairs, charged_to};
ghost use Rattle.posting_order.specs.Timelines.{without};
ghost use Rattle.repost_frontier.specs.Slots.{is_suspect, as_published, slot_at, slots_without, with_value};
ghost use Rattle.repost_laws.specs.Fetches.{AreDated};
ghost use Rattle.repost_spread.specs.Adding.{put_new, put_all_new};
ghost use Rattle.repost_index.specs.Indexed.{AreIndexed, CanBeIndexed, HasNoMoreRoom, HasRoom};
ghost use Rattle.repost_spread.specs.Movements.{AreKept, HaveNoMoreRoom, entries_of, line_of, slots_of, charged_by};
ghost use Rattle.repost_spread.specs.Removing.{slots_but_all, line_but_all};

use cost_links::charges::Charge;
use cost_links::links::Links;
use cost_links::values::Valued;
use repost_frontier::frontier::Frontier;
use repost_frontier::slot::Slot;
use repost_index::index::Index;
use std::alloc::Global;
use stock_nums::entry::Entry;
use stock_nums::memory::NoMemory;
use stock_nums::place::Place;

/// Movements in posting order, at most 2^20 and at most one at a place, each with what was last found of it, and what is
/// charged to lines. Contracts see them by `slots_of` and `charged_by`, and that they are found, by `AreKept`.
#[derive(Drop)]
pub struct Movements {
    pub(crate) frontier: Frontier,
    pub(crate) index: Index,
    pub(crate) links: Links,
}

impl Movements {
    /// No movement, and no charge. It takes no memory.
    pub fn new(alloc: Global) -> Movements
        ensures kept { AreKept result }
        ensures slots { slots_of result ≡ [] }
        ensures charged { (line : Target) → charged_by result line ≡ 0 }
    {
        Movements {
            frontier: Frontier::new(alloc),
            index: Index::new(alloc),
            links: Links::new(alloc),
        }
    }

    /// How many movements there are. It takes no memory.
    pub fn len(&self) -> usize
        ensures { result ≡ length (slots_of self.now) }
    {
        self.frontier.len()
    }

    /// Adds movements, suspect and with nothing found of them, and charges. Room for at most 128 more is left. A refusal changes
    /// nothing of what is kept.
    pub fn add(
        &mut self,
        alloc: Global,
        entries: &[Entry],
        charges: &[Charge],
    ) -> Result<(), NoMemory>
        requires kept { AreKept self.old }
        requires apart { HaveOwnPlaces (line_of self.old ++ entries.now) }
        requires few { length (slots_of self.old) + length entries.now ≤ 2 ^ 20 }
        requires dated { AreDated (line_of self.old ++ entries.now) }
        requires fits { (line : Target) → charged_by self.old line + charged_to line (charge_pairs charges.now) < 2 ^ 128 }
        ensures kept { AreKept self.new }
        ensures slots { OnOk result ((slots_of self.new) ≡ put_all_new (slots_of self.old) entries.now) }
        ensures line { OnOk result (line_of self.new ≡ put_all (line_of self.old) entries.now) }
        ensures charged { OnOk result ((line : Target) → charged_by self.new line
            ≡ charged_by self.old line + charged_to line (charge_pairs charges.now)) }
        ensures released { OnOk result (HaveNoMoreRoom 128 self.new) }
        ensures slots_stay { OnErr result ((slots_of self.new) ≡ (slots_of self.old)) }
        ensures charged_stays { OnErr result ((line : Target) → charged_by self.new line ≡ charged_by self.old line) }
    {
        self.frontier.reserve(entries.len())?;
        self.index.reserve(entries.len())?;
        self.links.add(alloc, entries, charges)?;
        put_all(&mut self.frontier, &mut self.index, entries);
        // The room was taken for the worst case of all of them.
        give_back(&mut self.frontier, &mut self.index);
        Ok(())
    }

    /// Takes movements out, each of which is there, with what was found of them, and takes charges off. It takes no memory.
    pub fn remove(&mut self, gone: &[Entry], uncharged: &[Charge])
        requires kept { AreKept self.old }
        requires held { (e : Entry) → Contains gone.now e → Contains (line_of self.old) e }
        requires apart { HaveOwnPlaces gone.now }
        requires within { (line : Target) → charged_to line (charge_pairs uncharged.now) ≤ charged_by self.old line }
        ensures kept { AreKept self.new }
        ensures slots { slots_of self.new ≡ slots_but_all (slots_of self.old) gone.now }
        ensures line { line_of self.new ≡ line_but_all (line_of self.old) gone.now }
        ensures charged { (line : Target) → charged_by self.new line + charged_to line (charge_pairs uncharged.now)
            ≡ charged_by self.old line }
    {
        take_all(&mut self.frontier, &mut self.index, gone);
        self.links.remove(gone, uncharged);
    }

    /// The movement at the place, with what was found of it. None exactly where there is none. It takes no memory.
    pub fn get(&self, place: &Place) -> Option<&Slot>
        ensures found { option_copied result ≡ slot_at (slots_of self.now) place.now }
        ensures in_order { IsInPostingOrder (line_of self.now) }
    {
        self.frontier.get(place)
    }

    /// The first movement that is suspect. None exactly where none is. It takes no memory.
    pub fn first(&self) -> Option<&Slot>
        ensures first { option_copied result ≡ find is_suspect (slots_of self.now) }
        ensures in_order { IsInPostingOrder (line_of self.now) }
    {
        self.frontier.first()
    }

    /// The movements from an index on that stand side by side: to walk over all, go on after them. It takes no memory.
    pub fn run_from(&self, index: usize) -> &[Slot]
        requires { index < length (slots_of self.now) }
        ensures some { 0 < length result.now }
        ensures slots { result.now ≡ take (length result.now) (drop index (slots_of self.now)) }
    {
        self.frontier.run_from(index)
    }

    /// Keeps what is found of the movement at the place: it is suspect no longer, and revalued. It takes no memory.
    pub fn value(&mut self, place: &Place, found: Valued)
        requires { AreKept self.old }
        ensures kept { AreKept self.new }
        ensures slots { (slots_of self.new) ≡ with_value (slots_of self.old) place.now found }
        ensures charged { (line : Target) → charged_by self.new line ≡ charged_by self.old line }
    {
        self.frontier.value(place, found);
    }

    /// Forgets which movements were revalued: all is published. It takes no memory.
    pub fn forget_revalued(&mut self)
        requires { AreKept self.old }
        ensures kept { AreKept self.new }
        ensures slots { (slots_of self.new) ≡ map as_published (slots_of self.old) }
        ensures charged { (line : Target) → charged_by self.new line ≡ charged_by self.old line }
    {
        self.frontier.forget_revalued();
    }
}

// Puts the movements, for which there is room, among the others.
fn put_all(frontier: &mut Frontier, index: &mut Index, entries: &[Entry])
    requires indexed { AreIndexed (entries_of frontier.old.slots) index.old }
    requires apart { HaveOwnPlaces (entries_of frontier.old.slots ++ entries.now) }
    requires few { length frontier.old.slots + length entries.now ≤ 2 ^ 20 }
    requires dated { AreDated (entries_of frontier.old.slots ++ entries.now) }
    requires room { length entries.now ≤ frontier.old.spare }
    requires index_room { HasRoom (length entries.now) index.old }
    ensures slots { frontier.new.slots ≡ put_all_new frontier.old.slots entries.now }
    ensures line { entries_of frontier.new.slots ≡ put_all (entries_of frontier.old.slots) entries.now }
    ensures indexed { AreIndexed (entries_of frontier.new.slots) index.new }
{
    for entry in entries {
        put(frontier, index, entry);
    }
}

// Puts a movement, for which there is room, among the others, which are those of the line.
fn put(frontier: &mut Frontier, index: &mut Index, entry: &Entry)
    ghost line: { List Entry }
    requires same { entries_of frontier.old.slots ≡ line }
    requires indexed { AreIndexed line index.old }
    requires can { CanBeIndexed line entry.now }
    requires few { length line < 2 ^ 20 }
    requires room { 0 < frontier.old.spare }
    requires index_room { HasRoom 1 index.old }
    ensures slots { frontier.new.slots ≡ put_new frontier.old.slots entry.now }
    ensures line { entries_of frontier.new.slots ≡ put line entry.now }
    ensures indexed { AreIndexed (put line entry.now) index.new }
    ensures room { frontier.old.spare ≤ frontier.new.spare + 1 }
    ensures index_room { (n : ℕ) → HasRoom (n + 1) index.old → HasRoom n index.new }
{
    index.insert(entry);
    frontier.insert(*entry);
}

// Gives the room back that no movement stands in.
fn give_back(frontier: &mut Frontier, index: &mut Index)
    ensures slots { frontier.new.slots ≡ frontier.old.slots }
    ensures keys { index.new.keys ≡ index.old.keys }
    ensures entering { index.new.entering ≡ index.old.entering }
    ensures leaving { index.new.leaving ≡ index.old.leaving }
    ensures moments { index.new.moments ≡ index.old.moments }
    ensures released { frontier.new.spare ≤ 128 }
    ensures index_released { HasNoMoreRoom 128 index.new }
{
    frontier.release();
    index.release();
}

// Takes movements out, each of which is there.
fn take_all(frontier: &mut Frontier, index: &mut Index, gone: &[Entry])
    requires indexed { AreIndexed (entries_of frontier.old.slots) index.old }
    requires held { (e : Entry) → Contains gone.now e → Contains (entries_of frontier.old.slots) e }
    requires apart { HaveOwnPlaces gone.now }
    ensures slots { frontier.new.slots ≡ slots_but_all frontier.old.slots gone.now }
    ensures line { entries_of frontier.new.slots ≡ line_but_all (entries_of frontier.old.slots) gone.now }
    ensures indexed { AreIndexed (entries_of frontier.new.slots) index.new }
{
    for entry in gone {
        take(frontier, index, entry);
    }
}

// Takes a movement out, which is there.
fn take(frontier: &mut Frontier, index: &mut Index, entry: &Entry)
    ghost line: { List Entry }
    requires same { entries_of frontier.old.slots ≡ line }
    requires indexed { AreIndexed line index.old }
    requires held { Contains line entry.now }
    ensures slots { frontier.new.slots ≡ slots_without frontier.old.slots entry.now.place }
    ensures line { entries_of frontier.new.slots ≡ without line entry.now.place }
    ensures indexed { AreIndexed (without line entry.now.place) index.new }
{
    index.remove(entry);
    frontier.remove(&entry.place);
}
