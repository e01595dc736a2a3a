//! Stored worths by their spots.
ghost use Rattle.std.specs.Prelude.{◌≡◌, ◌++◌, ◌∷◌, [], not, ◌&&◌, Bool, Option, Some, false, if◌then◌else◌, IfOk, OnOk};
ghost use Rattle.std.specs.List.{list_any};
ghost use Rattle.std.specs.Option.{option_or};
ghost use Rattle.stock_nums.specs.declared.place.Spot.{Spot};
ghost use Rattle.stock_keeper.specs.Worths.{is_same_spot};
ghost use Rattle.kept_tables.specs.Differences.{worth_at};
ghost use Rattle.generation_audit.specs.RightRows.{stands_at, entry_spot};
ghost use Rattle.generation_audit.specs.StoredAt.{first_at, mark_at};

use std::alloc::Global;
use std::collections::BTreeMap;
use stock_keeper::changes::SpotWorth;
use stock_nums::entry::{Entry, Worth};
use stock_nums::memory::NoMemory;
use stock_nums::place::Spot;

/// Worths, each found by its spot; of several at one spot the first.
#[derive(Drop)]
pub(crate) struct StoredWorths<'a> {
    pub(crate) worths: &'a [SpotWorth],
    by_spot: BTreeMap<Spot, Worth>,
    ghost stands: { (spot : Spot) → first_at by_spot spot ≡ worth_at worths.now spot },
}

impl<'a> StoredWorths<'a> {
    /// These worths by their spots.
    pub(crate) fn of(alloc: Global, worths: &'a [SpotWorth]) -> Result<StoredWorths<'a>, NoMemory>
        ensures { IfOk result (λ stored. stored.worths.now ≡ worths.now) }
    {
        let by_spot = first_ones(alloc, worths)?;
        Ok(StoredWorths { worths, by_spot })
    }

    /// The first that stands at the spot. None exactly where none does. It takes no memory.
    pub(crate) fn at(&self, spot: &Spot) -> Option<Worth>
        ensures { result ≡ worth_at self.now.worths.now spot.now }
    {
        first_at(&self.by_spot, spot)
    }
}

// The first of the worths at each spot.
fn first_ones(alloc: Global, worths: &[SpotWorth]) -> Result<BTreeMap<Spot, Worth>, NoMemory>
    ensures { IfOk result (λ found. (spot : Spot) → first_at found spot ≡ worth_at worths.now spot) }
{
    let mut found = BTreeMap::new(alloc);
    for worth in worths {
        add_first(&mut found, worth)?;
    }
    Ok(found)
}

// Adds a worth where none stands at its spot yet.
fn add_first(found: &mut BTreeMap<Spot, Worth>, worth: &SpotWorth) -> Result<(), NoMemory>
    ensures { OnOk result ((spot : Spot) → first_at found.new spot
        ≡ option_or (first_at found.old spot) (if is_same_spot worth.now.spot spot then Some worth.now.worth else None)) }
{
    if first_at(found, &worth.spot).is_none() {
        put(found, worth.spot, worth.worth)?;
    }
    Ok(())
}

fn put(found: &mut BTreeMap<Spot, Worth>, spot: Spot, worth: Worth) -> Result<(), NoMemory>
    ensures { OnOk result ((other : Spot) → first_at found.new other
        ≡ (if is_same_spot spot other then Some worth else first_at found.old other)) }
{
    found.insert(spot, worth)?;
    Ok(())
}

fn first_at(found: &BTreeMap<Spot, Worth>, spot: &Spot) -> Option<Worth>
    ensures { result ≡ first_at found.now spot.now }
{
    found.get(spot).copied()
}

/// The spots of movements, each of which is free until a worth that stands there was met.
#[derive(Drop)]
pub(crate) struct FreeSpots {
    marks: BTreeMap<Spot, bool>,
}

impl FreeSpots {
    /// The spots of these movements, all of them free.
    pub(crate) fn of(alloc: Global, line: &[Entry]) -> Result<FreeSpots, NoMemory>
        ensures { IfOk result (λ free. (spot : Spot) → mark_at free spot ≡ list_any (stands_at spot) line.now) }
    {
        let mut free = FreeSpots {
            marks: BTreeMap::new(alloc),
        };
        for entry in line {
            free.mark(spot_of(entry), true)?;
        }
        Ok(free)
    }

    /// Whether the spot is free. It takes no memory.
    pub(crate) fn has(&self, spot: &Spot) -> bool
        ensures { result ≡ mark_at self.now spot.now }
    {
        match self.marks.get(spot) {
            Some(mark) => *mark,
            None => false,
        }
    }

    /// Says that the spot is free no more.
    pub(crate) fn take(&mut self, spot: Spot) -> Result<(), NoMemory>
        ensures { OnOk result ((other : Spot) → mark_at self.new other ≡ (mark_at self.old other && not (is_same_spot spot other))) }
    {
        self.mark(spot, false)
    }

    fn mark(&mut self, spot: Spot, mark: bool) -> Result<(), NoMemory>
        ensures { OnOk result ((other : Spot) → mark_at self.new other ≡ (if is_same_spot spot other then mark else mark_at self.old other)) }
    {
        self.marks.insert(spot, mark)?;
        Ok(())
    }
}

/// Where a movement's worth is stored.
pub(crate) fn spot_of(entry: &Entry) -> Spot
    ensures { result ≡ entry_spot entry.now }
{
    Spot {
        voucher: entry.place.voucher,
        line: entry.place.line,
        side: entry.place.side,
    }
}
