//! The double of a keeper: what a crash may leave can be looked at.
ghost use Rattle.std.specs.Prelude.{◌≡◌, ◌↔◌, ◌^◌, ◌<◌, ℕ, length, IsOk, [], IfOk, OnOk, OnErr, IsErr, IsTrue, if◌then◌else◌, Err};
ghost use Rattle.stock_io.specs.Counts.{NeverFalls};
ghost use Rattle.stock_io.specs.Memory.{NextFails};
ghost use Rattle.stock_keeper.specs.Changed.{new_tables, appended, published, Follows, CoversMore, CoversRecords};
ghost use Rattle.stock_keeper.specs.Memory.{new_keeper, restarted, image_at, MayLeave, after_change, after_other_call, after_failed_call, HasTried};
ghost use Rattle.stock_keeper.specs.Worths.{AreInOrder};
ghost use Rattle.stock_keeper.specs.declared.fault.KeepFault.TheVariants as fault;
ghost use Rattle.stock_keeper.specs.declared.tables.Tables.{Tables};

use crate::changes::Changes;
use crate::fault::KeepFault;
use crate::keeper::Keeper;
use crate::tables::Tables;
use std::alloc::Global;
use std::marker::Model;
use stock_nums::lines::Lines;
use stock_nums::memory::NoMemory;
use stock_nums::numbers::RecordNo;

/// A keeper in memory, of which chosen calls fail.
#[derive(Drop)]
pub struct MemKeeper {
    alloc: Global,
    tables: Tables,
    /// What a crash may leave in place of the tables: what calls that failed would have made.
    images: Vec<Tables>,
    failing: Lines<u64>,
    calls: u64,
    faults: u64,
}

impl Model for MemKeeper {
    ghost use Rattle.std.specs.Prelude.{All};
    ghost use Rattle.stock_keeper.specs.Memory.{PlannedKeeper};
    ghost use Rattle.stock_keeper.specs.Worths.{AreInOrder};

    ghost Value = { PlannedKeeper };

    ghost view = { λ k. record {
      tables = k.tables;
      images = k.images.items;
      plan = record { failing = k.failing; calls = k.calls; faults = k.faults };
    } };

    ghost invariant = { λ k. AreInOrder k.tables.worths × All (λ t. AreInOrder t.worths) k.images.items };
}

impl MemKeeper {
    /// A keeper with nothing in it. No call fails.
    pub fn new(alloc: Global) -> MemKeeper
        ensures { result ≡ new_keeper new_tables [] }
    {
        MemKeeper::of(alloc, Tables::new(alloc), Lines::new(alloc))
    }

    /// A keeper of these tables. The calls whose numbers, counted from 1 over `append`, `publish` and `load`
    /// together, stand in `failing` fail.
    pub fn of(alloc: Global, tables: Tables, failing: Lines<u64>) -> MemKeeper
        requires { AreInOrder tables.worths }
        ensures { result ≡ new_keeper tables failing }
    {
        MemKeeper {
            alloc,
            tables,
            images: Vec::new(alloc),
            failing,
            calls: 0,
            faults: 0,
        }
    }

    /// What a crash now leaves, as a keeper of which no call fails: the image with this index, or the tables
    /// where there is none. `images` tells how many there are.
    ///
    /// # Errors
    ///
    /// None: it takes no memory.
    pub fn crash(self, pick: usize) -> Result<MemKeeper, NoMemory>
        ensures image { IfOk result (λ keeper. keeper ≡ new_keeper (image_at self pick) []) }
        ensures done { IsOk result }
        ensures one { IfOk result (λ keeper. MayLeave self keeper.tables) }

        // Each that a crash may leave is left for some index.
        ensures every { (t : Tables) → MayLeave self t → (p : ℕ) × (p < 2 ^ 64) × (image_at self p ≡ t) }
    {
        let MemKeeper {
            alloc,
            tables,
            mut images,
            failing: _,
            calls: _,
            faults: _,
        } = self;
        let left = if pick < images.len() {
            images.swap_remove(pick)
        } else {
            tables
        };
        Ok(MemKeeper::of(alloc, left, Lines::new(alloc)))
    }

    /// This keeper as it is handed out again: its tables, and its plan from the beginning.
    pub(crate) fn restarted(self) -> MemKeeper
        ensures { result ≡ restarted self }
    {
        MemKeeper::of(self.alloc, self.tables, self.failing)
    }

    /// The tables.
    pub fn tables(&self) -> &Tables
        ensures { result.now ≡ self.now.tables }
    {
        &self.tables
    }

    /// How many images there are beside the tables.
    pub fn images(&self) -> usize
        ensures { result ≡ length self.now.images }
    {
        self.images.len()
    }

    /// How many calls failed, all of them planned. The count stays at `u64::MAX`.
    pub fn faults(&self) -> u64
        ensures { result ≡ self.now.plan.faults }
    {
        self.faults
    }

    /// How many calls there were of `append`, `publish` and `load` together. The count stays at `u64::MAX`.
    pub fn calls(&self) -> u64
        ensures { result ≡ self.now.plan.calls }
    {
        self.calls
    }

    // Counts a call, and a fault where it is one of those that fail. Says whether it is.
    fn next_fails(&mut self) -> bool
        ensures planned { IsTrue result ↔ NextFails self.old.plan }
        ensures after { self.new ≡
            (if result then after_failed_call self.old self.old.images else after_other_call self.old) }
        ensures never_falls { NeverFalls self.old.plan.faults self.new.plan.faults }
    {
        self.calls = self.calls.saturating_add(1);
        let fails = self.failing.as_slice().contains(&self.calls);
        if fails {
            self.faults = self.faults.saturating_add(1);
        }
        fails
    }

    // Keeps what a call that failed would have made, where there was memory for it.
    fn keep_image(&mut self, image: Result<Tables, NoMemory>)
        requires { IfOk image (λ t. AreInOrder t.worths) }
        ensures tried { IfOk image (λ t. HasTried t self.old.images self.new.images) }
        ensures not_tried { OnErr image (self.new.images ≡ self.old.images) }
        ensures rest { self.new ≡ record self.old { images = self.new.images } }
    {
        if let Ok(image) = image {
            let _ = self.images.push(image);
        }
    }
}

impl Keeper for MemKeeper {
    ghost use Rattle.std.specs.Prelude.{Some};
    ghost use Rattle.std.proofs.Common.{inl};

    ghost tells = { λ k t. t ≡ k.tables };

    ghost may_leave = { MayLeave };

    ghost faults = { λ k. k.plan.faults };

    ghost plan = { λ k. Some k.plan.failing };

    ghost calls = { λ k. k.plan.calls };

    fn is_lasting(&self) -> bool {
        true
    }

    fn append(&mut self, number: RecordNo, body: &[u8]) -> Result<(), KeepFault>
        requires { Follows self.old.tables number }
        ensures never_falls { NeverFalls self.old.plan.faults self.new.plan.faults }

        // Which calls fail, and what each leaves.
        ensures planned { (result ≡ Err fault.Failed) ↔ NextFails self.old.plan }
        ensures after_ok { OnOk result
            (self.new ≡ after_change self.old (appended number body.now self.old.tables)) }
        ensures after_failed { result ≡ Err fault.Failed → self.new ≡ after_failed_call self.old self.new.images }
        ensures tried { result ≡ Err fault.Failed
            → HasTried (appended number body.now self.old.tables) self.old.images self.new.images }
        ensures after_no_memory { result ≡ Err fault.NoMemory → self.new ≡ after_other_call self.old }
    {
        if self.next_fails() {
            let image = self.tables.with_record(self.alloc, number, body);
            self.keep_image(image);
            return Err(KeepFault::Failed);
        }
        self.tables.append(self.alloc, number, body)?;
        self.images.clear();
        Ok(())
    }

    fn publish(&mut self, covered: RecordNo, changes: &Changes) -> Result<(), KeepFault>
        requires more { CoversMore self.old.tables covered }
        requires within { CoversRecords self.old.tables covered }
        ensures never_falls { NeverFalls self.old.plan.faults self.new.plan.faults }

        // Which calls fail, and what each leaves.
        ensures planned { (result ≡ Err fault.Failed) ↔ NextFails self.old.plan }
        ensures after_ok { OnOk result
            (self.new ≡ after_change self.old (published covered changes.now self.old.tables)) }
        ensures after_failed { result ≡ Err fault.Failed → self.new ≡ after_failed_call self.old self.new.images }
        ensures tried { result ≡ Err fault.Failed
            → HasTried (published covered changes.now self.old.tables) self.old.images self.new.images }
        ensures after_no_memory { result ≡ Err fault.NoMemory → self.new ≡ after_other_call self.old }
    {
        if self.next_fails() {
            let image = self.tables.with_changes(self.alloc, covered, changes);
            self.keep_image(image);
            return Err(KeepFault::Failed);
        }
        self.tables.publish(self.alloc, covered, changes)?;
        self.images.clear();
        Ok(())
    }

    fn load(&mut self) -> Result<Tables, KeepFault>
        ensures never_falls { NeverFalls self.old.plan.faults self.new.plan.faults }

        // Which calls fail, and what each leaves.
        ensures planned { (result ≡ Err fault.Failed) ↔ NextFails self.old.plan }
        ensures tables { IfOk result (λ copy. copy ≡ self.old.tables) }
        ensures in_order { IfOk result (λ copy. AreInOrder copy.worths) }
        ensures after_failed { result ≡ Err fault.Failed → self.new ≡ after_failed_call self.old self.old.images }
        ensures after_ok { OnOk result (self.new ≡ after_other_call self.old) }
        ensures after_no_memory { result ≡ Err fault.NoMemory → self.new ≡ after_other_call self.old }
    {
        if self.next_fails() {
            return Err(KeepFault::Failed);
        }
        Ok(self.tables.copy(self.alloc)?)
    }

    ghost stays = { λ k t told. inl told };
}
