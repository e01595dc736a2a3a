//! A build: records are fetched, which makes some movements suspect, each turn values the first suspect, and once none is left
//! what changed is published.
ghost use Rattle.std.specs.Prelude.{◌≡◌, ◌+◌, ◌*◌, ◌<◌, ◌≤◌, ◌||◌, ◌↔◌, ◌++◌, [], true, false, Contains, List, length, map, take, drop, filter, IsNone, IfSome, IfOk, OnOk, OnErr};
ghost use Rattle.stock_nums.specs.declared.entry.Entry.{Entry};
ghost use Rattle.stock_nums.specs.declared.place.Place.{Place};
ghost use Rattle.stock_model.specs.Journals.{AreLegal};
ghost use Rattle.stock_model.specs.PostingOrder.{posting_line};
ghost use Rattle.stock_model.specs.Replay.{replay};
ghost use Rattle.stock_model.specs.declared.records.Record.{Record};
ghost use Rattle.repost_fetch.specs.Changes.{AreChanges, is_valued, spot_of_entry};
ghost use Rattle.repost_fetch.specs.Fetched.{IsFetchedOf};
ghost use Rattle.repost_laws.specs.Builds.{IsClean};
ghost use Rattle.repost_laws.specs.Changes.{goes_with, both_lines, is_recharged};
ghost use Rattle.repost_laws.specs.Touched.{is_old, is_touched_by};
ghost use Rattle.repost_laws.specs.WholeBuilds.{made};
ghost use Rattle.repost_build.specs.Builds.{IsOf, IsTurned};
ghost use Rattle.repost_build.specs.Readings.{found_in, suspects_in, valued_in, base_of, target_of, fetches_of, turns_of, gone_of, IsUnchanged};

use crate::row_blocks::rows_beside;
use crate::slot_rows::push_valued;
use cost_links::values::value_entry;
use repost_fetch::fetch::Fetched;
use repost_spread::movements::Movements;
use shared_list::blocks::SharedBlocks;
use std::alloc::Global;
use std::sync::ledger::Ledger;
use stock_nums::entry::{Entry, Row};
use stock_nums::lines::Lines;
use stock_nums::memory::NoMemory;
use stock_nums::numbers::RecordNo;
use stock_nums::place::{Place, Spot};
use stock_nums::steps::Steps;

/// The movements of a journal's first records, each with what it was last found to be worth and whether that may have to
/// change, and how far reports are made from it. Contracts see it by `IsOf` its journal.
#[derive(Drop)]
pub struct Build {
    movements: Movements,
    /// How many records were published last.
    base: RecordNo,
    /// Of how many records it is.
    target: RecordNo,
    /// The spots of the movements that were published last and are there no more.
    gone: Vec<Spot>,
    /// The rows that were published last, whose blocks the next ones share.
    published: SharedBlocks<Row>,
    /// How many fetches it made since the last publication.
    fetches: u32,
    /// How many fetches and valuations.
    turns: u64,
}

impl Build {
    /// Of no record. It takes no memory.
    pub fn new(alloc: Global) -> Build
        ensures { IsOf [] result }
    {
        Build {
            movements: Movements::new(alloc),
            base: RecordNo(0),
            target: RecordNo(0),
            gone: Vec::new(alloc),
            published: SharedBlocks::new(),
            fetches: 0,
            turns: 0,
        }
    }

    /// How many records were published last.
    pub fn base(&self) -> RecordNo
        ensures { result.0 ≡ base_of self.now }
    {
        self.base
    }

    /// Of how many records it is.
    pub fn target(&self) -> RecordNo
        ensures { result.0 ≡ target_of self.now }
    {
        self.target
    }

    /// How many fetches it made since the last publication.
    pub fn fetches(&self) -> u32
        ensures { result ≡ fetches_of self.now }
    {
        self.fetches
    }

    /// How many fetches and valuations it made since the last publication: no more than one for each fetch, and for each fetch
    /// one for each movement that its records ever made.
    pub fn turns(&self) -> u64
        ghost journal: { List Record }
        requires of { IsOf journal self.now }
        ensures turns { result ≡ turns_of self.now }
        ensures few { turns_of self.now ≤ fetches_of self.now * (made journal + 1) }
    {
        self.turns
    }

    /// Whether some movement is suspect. It takes no memory.
    pub fn has_suspect(&self) -> bool
        ghost journal: { List Record }
        requires of { IsOf journal self.now }
        ensures { (result ≡ false) ↔ IsClean (posting_line journal) (suspects_in self.now) }
    {
        self.movements.first().is_some()
    }

    /// Takes in what further records bring, at least one of them, takes out what they take back, and makes suspect what both touch.
    /// It takes all memory that turns may need. A refusal changes nothing.
    ///
    /// # Errors
    ///
    /// `NoMemory`: memory was wanting.
    pub fn extend(&mut self, alloc: Global, fetched: &Fetched) -> Result<(), NoMemory>
        ghost journal: { List Record }
        requires of { IsOf (take (target_of self.old) journal) self.old }
        requires fetched { IsFetchedOf (take (target_of self.old) journal) (drop (target_of self.old) journal) fetched.now }
        requires later { target_of self.old < length journal }
        requires legal { AreLegal journal }
        ensures of { OnOk result (IsOf journal self.new) }
        ensures touched { OnOk result ((e : Entry) → Contains (posting_line journal) e → suspects_in self.new e.place
            ≡ (suspects_in self.old e.place || is_touched_by (target_of self.old)
            (goes_with (take (target_of self.old) journal) (drop (target_of self.old) journal))
            (is_recharged (take (target_of self.old) journal) (drop (target_of self.old) journal))
            (both_lines (take (target_of self.old) journal) (drop (target_of self.old) journal)) e)) }
        ensures found { OnOk result ((e : Entry) → Contains (posting_line journal) e → found_in self.new e.place ≡ found_in self.old e.place) }
        ensures valued { OnOk result ((e : Entry) → Contains (posting_line journal) e → valued_in self.new e.place ≡ valued_in self.old e.place) }
        ensures base { OnOk result (base_of self.new ≡ base_of self.old) }
        ensures fetches { OnOk result (fetches_of self.new ≡ fetches_of self.old + 1) }
        ensures turns { OnOk result (turns_of self.new ≡ turns_of self.old + 1) }
        ensures still { OnErr result (IsOf (take (target_of self.old) journal) self.new) }
        ensures unchanged { OnErr result (IsUnchanged self.old self.new) }
    {
        let coming = fetched.entries.as_slice();
        let gone = fetched.gone.as_slice();
        let charges = fetched.charges.as_slice();
        let uncharged = fetched.uncharged.as_slice();
        let spots = with_gone(alloc, &self.gone, self.base, gone)?;
        self.movements.add(alloc, coming, charges)?;
        self.movements
            .touch(self.target, coming, gone, charges, uncharged);
        self.movements.remove(gone, uncharged);
        self.gone = spots;
        self.target = fetched.upto;
        self.fetches += 1;
        self.turns += 1;
        Ok(())
    }

    /// Values the first suspect alone, and answers its place. None exactly where there is no suspect, and then nothing changes.
    /// A valuation counts one step, and it takes no memory.
    pub fn turn<L: Ledger>(&mut self, steps: &mut Steps<L>) -> Option<Place>
        ghost journal: { List Record }
        requires of { IsOf journal self.old }
        ensures of { IsOf journal self.new }
        ensures turned { IfSome result (IsTurned journal self.old self.new) }
        ensures steps { IfSome result (λ place. steps.new ≡ steps.old + 1) }
        ensures clean { IsNone result → IsClean (posting_line journal) (suspects_in self.old) }
        ensures unchanged { IsNone result → IsUnchanged self.old self.new }
        ensures no_steps { IsNone result → steps.new ≡ steps.old }
    {
        let entry = self.movements.first()?.entry;
        let taken = self.movements.taken_over(&entry);
        let valued = value_entry(&entry, &taken, steps);
        self.movements.spread(&entry, &valued);
        self.movements.value(&entry.place, valued);
        self.turns += 1;
        Some(entry.place)
    }

    /// All movements, each with what it is worth, in posting order: the rows of the replay of the build's records. It goes over the
    /// movements once, and looks at no record. Blocks in which nothing changed are those of the rows that were published last.
    ///
    /// # Errors
    ///
    /// `NoMemory`: memory was wanting.
    pub fn rows(&self, alloc: Global) -> Result<SharedBlocks<Row>, NoMemory>
        ghost journal: { List Record }
        requires of { IsOf journal self.now }
        requires clean { IsClean (posting_line journal) (suspects_in self.now) }
        ensures { IfOk result (λ rows. rows ≡ replay journal) }
    {
        rows_beside(alloc, &self.movements, self.published.blocks())
    }

    /// The movements that were valued since the last publication, each with what it is worth, in posting order: these rows of
    /// the replay of the build's records replace those of the records that were published last, and all others stay but for those
    /// that are gone.
    ///
    /// # Errors
    ///
    /// `NoMemory`: memory was wanting.
    pub fn changed(&self, alloc: Global) -> Result<Lines<Row>, NoMemory>
        ghost journal: { List Record }
        requires of { IsOf journal self.now }
        requires clean { IsClean (posting_line journal) (suspects_in self.now) }
        ensures rows { IfOk result (λ rows. rows ≡ filter (is_valued (valued_in self.now)) (replay journal)) }
        ensures changes { IfOk result (λ rows. AreChanges journal (base_of self.now) rows (gone_of self.now)) }
    {
        let mut rows = Lines::new(alloc);
        let mut index = 0;
        while index < self.movements.len() {
            let run = self.movements.run_from(index);
            push_valued(&mut rows, run)?;
            index += run.len();
        }
        Ok(rows)
    }

    /// The spots of the movements that were published last and are there no more, each once. It takes no memory.
    pub fn gone(&self) -> &[Spot]
        ensures { result.now ≡ gone_of self.now }
    {
        &self.gone
    }

    /// Counts anew from here, where all is published: base becomes target. The next rows share blocks with these, which were published.
    /// It takes no memory.
    pub fn published(&mut self, rows: SharedBlocks<Row>)
        ghost journal: { List Record }
        requires of { IsOf journal self.old }
        requires clean { IsClean (posting_line journal) (suspects_in self.old) }
        ensures of { IsOf journal self.new }
        ensures base { base_of self.new ≡ target_of self.old }
        ensures fetches { fetches_of self.new ≡ 0 }
        ensures found { (place : Place) → found_in self.new place ≡ found_in self.old place }
        ensures suspects { (place : Place) → suspects_in self.new place ≡ suspects_in self.old place }
        ensures valued { (place : Place) → valued_in self.new place ≡ false }
        ensures gone { gone_of self.new ≡ [] }
    {
        self.movements.forget_revalued();
        self.gone.clear();
        self.published = rows;
        self.base = self.target;
        self.fetches = 0;
        self.turns = 0;
    }
}

// The spots, and after them those of the movements that go, but for movements of records after the first `base` ones, which were
// never published.
fn with_gone(
    alloc: Global,
    spots: &[Spot],
    base: RecordNo,
    gone: &[Entry],
) -> Result<Vec<Spot>, NoMemory>
    ensures { IfOk result (λ all. all.items ≡ spots.now ++ map spot_of_entry (filter (is_old base.0) gone.now)) }
{
    let mut all = spots.to_vec(alloc)?;
    for entry in gone {
        if entry.place.voucher.0 <= base.0 {
            all.push(spot_of(entry))?;
        }
    }
    Ok(all)
}

// Where the movement stands among those of its record.
fn spot_of(entry: &Entry) -> Spot
    ensures { result ≡ spot_of_entry entry.now }
{
    Spot {
        voucher: entry.place.voucher,
        line: entry.place.line,
        side: entry.place.side,
    }
}
