//! Records that were read, each of which has no fault at its place.
ghost use Rattle.std.specs.Prelude.{◌≡◌, ◌⊎◌, ◌≤◌, [], ◌∷◌, ◌++◌, length, Some, None, IfOk, OnOk, IfErr, OnErr};
ghost use Rattle.stock_nums.specs.declared.limits.TheConstants.{MAX_RECORDS};
ghost use Rattle.stock_model.specs.Entries.{entries};
ghost use Rattle.stock_model.specs.Faults.{voucher_fault, full, fault_but_short, fault};
ghost use Rattle.stock_model.specs.Journals.{AreLegal};
ghost use Rattle.stock_model.specs.PostingOrder.{posting_line};
ghost use Rattle.record_effects.specs.Effects.{gone_with};

use quantity_check::running::Running;
use record_effects::effect::Effect;
use std::alloc::Global;
use std::marker::Model;
use stock_model::faults::PostFault;
use stock_model::movements;
use stock_model::records::Record;
use stock_nums::entry::Entry;
use stock_nums::limits::{MAX_ENTRIES, MAX_RECORDS};
use stock_nums::lines::Lines;
use stock_nums::memory::NoMemory;
use voucher_kinds::journal::Journal;

/// Why a record was not added.
#[derive(Clone, Copy, Debug, PartialEq, Eq)]
pub(crate) enum NotAdded {
    /// It has a fault at its place.
    Faulty,
    /// Memory was wanting.
    NoMemory,
}

/// Records none of which has a fault at its place, and their movements in posting order. Contracts see the list of the records.
#[derive(Drop)]
pub(crate) struct LegalJournal {
    journal: Journal,
    movements: Running,
}

impl Model for LegalJournal {
    ghost use Rattle.std.specs.Prelude.{List};
    ghost use Rattle.stock_model.specs.declared.records.Record.{Record};
    ghost use Rattle.generation_audit.specs.LegalJournals.{IsLegalJournal};

    ghost Value = { List Record };

    ghost view = { λ read. read.journal };

    ghost invariant = { λ read. IsLegalJournal read.journal read.movements.entries };
}

impl LegalJournal {
    /// No record. It takes no memory.
    pub(crate) fn new(alloc: Global) -> LegalJournal
        ensures { result ≡ [] }
    {
        LegalJournal {
            journal: Journal::new(alloc),
            movements: Running::new(alloc),
        }
    }

    /// The records.
    pub(crate) fn records(&self) -> &[Record]
        ensures records { result.now ≡ self.now }
        ensures within { length self.now ≤ MAX_RECORDS }
        ensures legal { AreLegal self.now }
    {
        self.journal.records()
    }

    /// Their movements in posting order.
    pub(crate) fn line(&self, alloc: Global) -> Result<Lines<Entry>, NoMemory>
        ensures { IfOk result (λ line. line ≡ posting_line self.now) }
    {
        self.movements.timeline().to_lines(alloc)
    }

    /// Adds a record that has no fault after the others.
    ///
    /// # Errors
    ///
    /// `Faulty` where it has one; `NoMemory`. The records stay.
    pub(crate) fn add(&mut self, alloc: Global, item: Record) -> Result<(), NotAdded>
        ensures sound { OnOk result (fault self.old item ≡ None) }
        ensures added { OnOk result (self.new ≡ self.old ++ item ∷ []) }
        ensures unchanged { OnErr result (self.new ≡ self.old) }
        ensures refused { IfErr result (λ f. (f ≡ NotAdded.NoMemory)
            ⊎ ((f ≡ NotAdded.Faulty) × (fault self.old item ≡ None → ⊥))) }
    {
        let effect = match self.effect_of(alloc, &item) {
            Ok(effect) => effect,
            Err(fault) => return Err(fault),
        };
        if self.movements.reserve(effect.adds.len()).is_err() {
            return Err(NotAdded::NoMemory);
        }
        let Ok(_) = self.journal.push(item) else {
            return Err(NotAdded::NoMemory);
        };
        self.movements
            .change(effect.adds.as_slice(), effect.gone.as_slice());
        Ok(())
    }

    // What a record that has no fault does to the movements.
    fn effect_of(&self, alloc: Global, item: &Record) -> Result<Effect, NotAdded>
        ensures sound { OnOk result (fault self.now item.now ≡ None) }
        ensures adds { IfOk result (λ effect. effect.adds ≡ entries self.now item.now) }
        ensures gone { IfOk result (λ effect. effect.gone ≡ gone_with self.now item.now) }
        ensures refused { IfErr result (λ f. (f ≡ NotAdded.NoMemory)
            ⊎ ((f ≡ NotAdded.Faulty) × (fault self.now item.now ≡ None → ⊥))) }
    {
        if let Some(_) = self.fault_but_short(item) {
            return Err(NotAdded::Faulty);
        }
        let Ok(effect) = Effect::of(alloc, &self.journal, item) else {
            return Err(NotAdded::NoMemory);
        };
        let (adds, gone) = (effect.adds.as_slice(), effect.gone.as_slice());
        match self.movements.try_change(adds, gone) {
            Ok(()) => Ok(effect),
            Err(_) => Err(NotAdded::Faulty),
        }
    }

    // The first fault of a record but a shortage. It takes no memory.
    fn fault_but_short(&self, item: &Record) -> Option<PostFault>
        ensures { result ≡ fault_but_short self.now item.now }
    {
        match self.journal.fault(item) {
            Some(fault) => Some(fault),
            None => self.full(item),
        }
    }

    // Whether there is no room for a record without a fault of its own. It takes no memory.
    fn full(&self, item: &Record) -> Option<PostFault>
        requires { voucher_fault self.now item.now.what ≡ None }
        ensures { result ≡ full self.now item.now }
    {
        let records = self.journal.count();
        let held = self.movements.timeline().len();
        if records as usize >= MAX_RECORDS || movements::count(item) > MAX_ENTRIES - held {
            return Some(PostFault::Full {
                records,
                entries: held as u32,
            });
        }
        None
    }
}
