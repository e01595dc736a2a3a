//! The movements of a book in posting order, with which no warehouse ever lacks what leaves it.
ghost use Rattle.std.specs.Prelude.{◌≡◌, ◌+◌, ◌^◌, ◌≤◌, [], ◌++◌, length, None, Some, All, Contains, OnOk, IfErr};
ghost use Rattle.stock_model.specs.Enough.{IsEnough, shortage};
ghost use Rattle.stock_model.specs.InOrder.{IsInPostingOrder};
ghost use Rattle.stock_model.specs.PostingOrder.{put_all};
ghost use Rattle.quantity_check.specs.ChangedLines.{line_without, changed_line};
ghost use Rattle.quantity_check.specs.OwnPlaces.{HaveOwnPlaces};

use crate::stretches::first_shortage;
use posting_order::timeline::Timeline;
use std::alloc::Global;
use std::marker::Model;
use stock_model::shortages::Shortage;
use stock_nums::entry::Entry;
use stock_nums::memory::NoMemory;

/// Movements in posting order, of which none takes more than there is of its item in its warehouse (at
/// every moment what left is at most what entered). Contracts see the list of them, and how many more fit
/// without memory.
#[derive(Drop)]
pub struct Running {
    line: Timeline,
}

impl Model for Running {
    ghost use Rattle.quantity_check.specs.State.{RunningState};
    ghost use Rattle.quantity_check.specs.Kept.{AreKept};

    ghost Value = { RunningState };

    ghost view = { λ running. record { entries = running.line.entries; spare = running.line.spare } };

    ghost invariant = { λ running. AreKept running.line.entries };
}

impl Running {
    /// No movement. It takes no memory.
    pub fn new(alloc: Global) -> Running
        ensures { result.entries ≡ [] }
    {
        Running {
            line: Timeline::new(alloc),
        }
    }

    /// Makes room for `n` more movements. The movements stay as they are, and no room is lost.
    pub fn reserve(&mut self, n: usize) -> Result<(), NoMemory>
        ensures room { OnOk result (n ≤ self.new.spare) }
        ensures unchanged { self.new.entries ≡ self.old.entries }
        ensures room_stays { self.old.spare ≤ self.new.spare }
    {
        self.line.reserve(n)
    }

    /// The movements, found by their places.
    pub fn timeline(&self) -> &Timeline
        ensures entries { result.now.entries ≡ self.now.entries }
        ensures room { result.now.spare ≡ self.now.spare }
        ensures in_order { IsInPostingOrder self.now.entries }
        ensures enough { IsEnough self.now.entries }
    {
        &self.line
    }

    /// Whether there is enough at all moments once movements with places of their own are put among the others, and some of those
    /// others, each named once, are taken out. It looks only where these fall and at what comes after them of their items in their
    /// warehouses, changes nothing, and takes no memory.
    ///
    /// # Errors
    ///
    /// The first movement of all, in posting order, that takes more than there is then.
    pub fn try_change(&self, adds: &[Entry], gone: &[Entry]) -> Result<(), Shortage>
        requires apart { HaveOwnPlaces (self.now.entries ++ adds.now) }
        requires held { All (Contains self.now.entries) gone.now }
        requires once { HaveOwnPlaces gone.now }
        requires few { length self.now.entries + length adds.now ≤ 2 ^ 20 }
        ensures none_short { OnOk result (shortage (changed_line self.now.entries adds.now gone.now) ≡ None) }
        ensures enough { OnOk result (IsEnough (changed_line self.now.entries adds.now gone.now)) }
        ensures short { IfErr result (λ s. shortage (changed_line self.now.entries adds.now gone.now) ≡ Some s) }
    {
        match first_shortage(&self.line, adds, gone) {
            None => Ok(()),
            Some(shortage) => Err(shortage),
        }
    }

    /// Takes the movements out that stand where those do that go, and puts movements with places of their own among the others,
    /// where there is room for them and enough at all moments then. It takes no memory.
    pub fn change(&mut self, adds: &[Entry], gone: &[Entry])
        requires apart { HaveOwnPlaces (self.old.entries ++ adds.now) }
        requires room { length adds.now ≤ self.old.spare }
        requires few { length self.old.entries + length adds.now ≤ 2 ^ 20 }
        requires enough { IsEnough (changed_line self.old.entries adds.now gone.now) }
        ensures changed { self.new.entries ≡ changed_line self.old.entries adds.now gone.now }
        ensures room { self.old.spare ≤ self.new.spare + length adds.now }
    {
        remove_all(&mut self.line, gone);
        insert_all(&mut self.line, adds);
    }
}

// Takes the movements that stand where these do out of the timeline, one after another.
fn remove_all(line: &mut Timeline, gone: &[Entry])
    ensures left { line.new.entries ≡ line_without line.old.entries gone.now }
    ensures room { line.old.spare ≤ line.new.spare }
{
    for entry in gone {
        line.remove(&entry.place);
    }
}

// Puts the movements into the timeline, one after another.
fn insert_all(line: &mut Timeline, entries: &[Entry])
    requires apart { HaveOwnPlaces (line.old.entries ++ entries.now) }
    requires room { length entries.now ≤ line.old.spare }
    requires few { length line.old.entries + length entries.now ≤ 2 ^ 20 }
    ensures added { line.new.entries ≡ put_all line.old.entries entries.now }
    ensures room { line.old.spare ≤ line.new.spare + length entries.now }
{
    for entry in entries {
        line.insert(*entry);
    }
}
