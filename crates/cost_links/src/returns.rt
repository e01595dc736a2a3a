//! The movements that return units of lines of vouchers.
ghost use Rattle.std.specs.Prelude.{◌≡◌, ◌^◌, ◌<◌, [], ◌∷◌, ◌++◌, false, filter, fold, is_ok, if◌then◌else◌, OnOk, OnErr};
ghost use Rattle.stock_nums.specs.Targets.{is_same_target};
ghost use Rattle.stock_nums.specs.declared.cause.Target.{Target};
ghost use Rattle.stock_model.specs.Returns.{is_return_of, returns_of};
ghost use Rattle.cost_links.specs.Tables.{entries_to};
ghost use Rattle.cost_links.specs.Sources.{target_of, is_elsewhere, left_by, units_before};
ghost use Rattle.cost_links.specs.Ends.{EndsWith, without_last};

use std::alloc::Global;
use std::collections::BTreeMap;
use stock_nums::cause::{Cause, Target};
use stock_nums::entry::Entry;
use stock_nums::memory::NoMemory;
use stock_nums::numbers::Qty;
use stock_nums::place::Place;

/// The movements that return units of each line of a voucher, as they were added. Contracts see them by `entries_to`.
#[derive(Drop)]
pub(crate) struct Returns {
    by_line: BTreeMap<Target, Vec<Entry>>,
}

impl Returns {
    /// No movement. It takes no memory.
    pub(crate) fn new(alloc: Global) -> Returns
        ensures { (line : Target) → entries_to result line ≡ [] }
    {
        Returns {
            by_line: BTreeMap::new(alloc),
        }
    }

    /// The movements that return units of the line, as they were added.
    pub(crate) fn of(&self, line: Target) -> &[Entry]
        ensures { result.now ≡ entries_to self.now line }
    {
        match self.by_line.get(&line) {
            Some(entries) => entries.as_slice(),
            None => &[],
        }
    }

    /// How many units of the line are returned by the movements that come before the place.
    pub(crate) fn units_before(&self, line: Target, place: &Place) -> Qty
        requires { units_before place.now (entries_to self.now line) < 2 ^ 64 }
        ensures { result.0 ≡ units_before place.now (entries_to self.now line) }
    {
        Qty(units_before(self.of(line), place))
    }

    /// Adds those of the movements that are returns, each to those of its line. A refusal changes nothing.
    pub(crate) fn add(&mut self, alloc: Global, entries: &[Entry]) -> Result<(), NoMemory>
        ensures added { OnOk result ((line : Target) → entries_to self.new line ≡ entries_to self.old line ++ filter (returns_of line) entries.now) }
        ensures unchanged { OnErr result ((line : Target) → entries_to self.new line ≡ entries_to self.old line) }
    {
        for (index, entry) in entries.iter().enumerate() {
            if let Err(fault) = self.add_one(alloc, entry) {
                self.take_back(&entries[..index]);
                return Err(fault);
            }
        }
        Ok(())
    }

    /// Takes those that stand where one of the movements does, which returns units of the same line, out. It takes no memory.
    pub(crate) fn remove(&mut self, entries: &[Entry])
        ensures { (line : Target) → entries_to self.new line ≡ fold left_by (entries_to self.old line) (filter (returns_of line) entries.now) }
    {
        for entry in entries {
            self.remove_one(entry);
        }
    }

    // Takes those that stand where the movement does out, where it is a return.
    fn remove_one(&mut self, entry: &Entry)
        ensures { (line : Target) → entries_to self.new line ≡ fold left_by (entries_to self.old line) (filter (returns_of line) (entry.now ∷ [])) }
    {
        if let Some(line) = target_of(entry) {
            self.take_out(line, &entry.place);
        }
    }

    // Takes the movements of the line that stand at the place out.
    fn take_out(&mut self, line: Target, place: &Place)
        ensures own { entries_to self.new line ≡ filter (is_elsewhere place.now) (entries_to self.old line) }
        ensures others { (other : Target) → is_same_target line other ≡ false → entries_to self.new other ≡ entries_to self.old other }
    {
        if let Some(entries) = self.by_line.get_mut(&line) {
            entries.retain(|entry| is_elsewhere(entry, place));
        }
    }

    // Adds the movement, where it is a return. A refusal changes nothing.
    fn add_one(&mut self, alloc: Global, entry: &Entry) -> Result<(), NoMemory>
        ensures added { OnOk result ((line : Target) → entries_to self.new line ≡ entries_to self.old line ++ filter (returns_of line) (entry.now ∷ [])) }
        ensures unchanged { OnErr result ((line : Target) → entries_to self.new line ≡ entries_to self.old line) }
    {
        match target_of(entry) {
            Some(line) => self.push(alloc, line, *entry),
            None => Ok(()),
        }
    }

    // Adds the movement to those of the line. A refusal changes nothing.
    fn push(&mut self, alloc: Global, line: Target, entry: Entry) -> Result<(), NoMemory>
        ensures own { entries_to self.new line ≡ (if is_ok result then entries_to self.old line ++ entry ∷ [] else entries_to self.old line) }
        ensures others { (other : Target) → is_same_target line other ≡ false → entries_to self.new other ≡ entries_to self.old other }
    {
        if let Some(entries) = self.by_line.get_mut(&line) {
            entries.push(entry)?;
            return Ok(());
        }
        let mut entries = Vec::new(alloc);
        entries.push(entry)?;
        self.by_line.insert(line, entries)?;
        Ok(())
    }

    // Takes those of the movements that are returns away again, where they were added last.
    fn take_back(&mut self, entries: &[Entry])
        requires { (line : Target) → EndsWith (filter (returns_of line) entries.now) (entries_to self.old line) }
        ensures { (line : Target) → entries_to self.new line ++ filter (returns_of line) entries.now ≡ entries_to self.old line }
    {
        let mut left = entries.len();
        while left > 0 {
            left -= 1;
            self.take_back_one(&entries[left]);
        }
    }

    // Takes the movement away again, where it was added last.
    fn take_back_one(&mut self, entry: &Entry)
        requires { (line : Target) → EndsWith (filter (returns_of line) (entry.now ∷ [])) (entries_to self.old line) }
        ensures { (line : Target) → entries_to self.new line ++ filter (returns_of line) (entry.now ∷ []) ≡ entries_to self.old line }
    {
        if let Some(line) = target_of(entry) {
            self.pop(line);
        }
    }

    // Takes the last movement of the line away.
    fn pop(&mut self, line: Target)
        ensures own { entries_to self.new line ≡ without_last (entries_to self.old line) }
        ensures others { (other : Target) → is_same_target line other ≡ false → entries_to self.new other ≡ entries_to self.old other }
    {
        if let Some(entries) = self.by_line.get_mut(&line) {
            let _ = entries.pop();
        }
    }
}

// The line of which the movement returns units. None exactly where it is no return.
fn target_of(entry: &Entry) -> Option<Target>
    ensures { result ≡ target_of entry.now.cause }
{
    match entry.cause {
        Cause::CustomerReturn { target, issued: _ } => Some(target),
        Cause::SupplierReturn {
            target,
            amount: _,
            received: _,
        } => Some(target),
        _ => None,
    }
}

// Whether the movement stands at another place.
fn is_elsewhere(entry: &Entry, place: &Place) -> bool
    ensures { result ≡ is_elsewhere place.now entry.now }
{
    entry.place.is_before(place) || place.is_before(&entry.place)
}

// How many units have those of the movements that come before the place.
fn units_before(entries: &[Entry], place: &Place) -> u64
    requires { units_before place.now entries.now < 2 ^ 64 }
    ensures { result ≡ units_before place.now entries.now }
{
    entries
        .iter()
        .filter(|entry| entry.place.is_before(place))
        .map(|entry| entry.qty.0)
        .sum()
}
