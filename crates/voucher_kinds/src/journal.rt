//! The accepted records, and what a voucher's codes stand for.

ghost use Rattle.std.specs.Prelude.{◌≡◌, ◌⊎◌, ◌+◌, ◌-◌, ◌<◌, ◌≤◌, ℕ, [], ◌∷◌, ◌++◌, length, take, IfOk, true, OnOk, OnErr, IfErr, IfSome, Some, None};
ghost use Rattle.std.specs.Option.{option_copied, option_map};
ghost use Rattle.stock_model.specs.declared.records.Record.{Record};
ghost use Rattle.stock_model.specs.Cancelling.{first_link, names_line_of, record_number};
ghost use Rattle.stock_model.specs.Faults.{voucher_fault};
ghost use Rattle.stock_model.specs.Entries.{entries, entries_of, is_live};
ghost use Rattle.stock_model.specs.Freezing.{frozen};
ghost use Rattle.stock_model.specs.Masters.{record_at};
ghost use Rattle.voucher_kinds.specs.Heads.{made_fault, with_made};
ghost use Rattle.voucher_kinds.specs.Journals.{is_later};

use crate::{heads, namers, returned_units, takers};
use item_master::master::Master;
use std::alloc::Global;
use std::marker::Model;
use stock_model::faults::PostFault;
use stock_model::names::{Listed, Names, Returns};
use stock_model::records::Record;
use stock_model::{cancelling, freezing, movements, refusals};
use stock_nums::cause::{Method, Target};
use stock_nums::code::Code;
use stock_nums::entry::Entry;
use stock_nums::limits::MAX_RECORDS;
use stock_nums::line_sums::LineSums;
use stock_nums::lines::Lines;
use stock_nums::memory::NoMemory;
use stock_nums::moment::Moment;
use stock_nums::numbers::{AccountNo, ItemNo, Qty, RecordNo, StoreNo};

/// The accepted records in the order of their numbers, their items and warehouses, the units that they return, which of
/// them takes each one back and from which one on it is named, and up to which moment they close the past, which are found
/// without going over the records.
/// Contracts see it as the list of the records.
#[derive(Drop)]
pub struct Journal {
    records: Vec<Record>,
    master: Master,
    returned_units: LineSums,
    takers: Vec<Option<RecordNo>>,
    namers: Vec<Option<RecordNo>>,
    frozen: Option<Moment>,
}

impl Model for Journal {
    ghost use Rattle.std.specs.Prelude.{List};
    ghost use Rattle.stock_model.specs.declared.records.Record.{Record};
    ghost use Rattle.voucher_kinds.specs.Journals.{IsJournal, AreNamers};

    ghost Value = { List Record };

    ghost view = { λ journal. journal.records.items };

    ghost invariant = { λ journal. IsJournal journal.records.items journal.master journal.returned_units journal.takers.items journal.frozen
        × AreNamers journal.records.items journal.namers.items };
}

impl Names for Journal {
    ghost journal = { λ journal. journal };

    fn item_with(&self, code: &Code) -> Option<(ItemNo, Method)> {
        self.master.item(code)
    }

    fn store_with(&self, code: &Code) -> Option<(StoreNo, AccountNo)> {
        self.master.store(code)
    }

    fn record_at(&self, number: RecordNo) -> Option<&Record> {
        self.at(number)
    }
}

impl Returns for Journal {
    fn is_live(&self, number: RecordNo) -> bool {
        takers::taker(self.takers.as_slice(), number).is_none()
    }

    fn first_link(&self, number: RecordNo) -> Option<RecordNo> {
        match takers::taker(self.namers.as_slice(), number) {
            Some(first) => self.link_from(first, number),
            None => None,
        }
    }

    fn returned(&self, target: Target) -> Qty {
        Qty(self.returned_units.of(target) as u64)
    }

    fn frozen(&self) -> Option<Moment> {
        self.frozen
    }
}

impl Journal {
    /// The empty journal. It takes no memory.
    pub fn new(alloc: Global) -> Journal
        ensures { result ≡ [] }
    {
        Journal {
            records: Vec::new(alloc),
            master: Master::new(alloc),
            returned_units: LineSums::new(alloc),
            takers: Vec::new(alloc),
            namers: Vec::new(alloc),
            frozen: None,
        }
    }

    /// The movements that the record would make as the next one, or its first fault, whatever room there is.
    /// A fault takes no memory, so want of memory comes only where there is none.
    pub fn check(&self, alloc: Global, item: &Record) -> Result<Lines<Entry>, PostFault>
        ensures sound { OnOk result (voucher_fault self.now item.now.what ≡ None) }
        ensures entries { IfOk result (λ es. es ≡ entries self.now item.now) }
        ensures fault { IfErr result (λ f. (f ≡ PostFault.NoMemory) × (voucher_fault self.now item.now.what ≡ None)
            ⊎ (voucher_fault self.now item.now.what ≡ Some f)) }
    {
        if let Some(fault) = self.fault(item) {
            return Err(fault);
        }
        match self.next_entries(alloc, item) {
            Ok(entries) => Ok(entries),
            Err(_) => Err(PostFault::NoMemory),
        }
    }

    /// The first fault of the record as the next one, whatever room there is. It takes no memory.
    pub fn fault(&self, item: &Record) -> Option<PostFault>
        ensures { result ≡ voucher_fault self.now item.now.what }
    {
        refusals::voucher_fault(self, item)
    }

    /// The movements that the record would make as the next one. A line whose item or warehouse is unknown makes
    /// none.
    pub fn next_entries(&self, alloc: Global, item: &Record) -> Result<Lines<Entry>, NoMemory>
        ensures { IfOk result (λ es. es ≡ entries self.now item.now) }
    {
        movements::entries(alloc, self, self.next(), item)
    }

    /// Keeps a record that has no fault, and answers its number. A refusal changes nothing.
    pub fn push(&mut self, item: Record) -> Result<RecordNo, NoMemory>
        requires room { length self.old < MAX_RECORDS }
        requires sound { voucher_fault self.old item.what ≡ None }
        ensures kept { OnOk result (self.new ≡ self.old ++ item ∷ []) }
        ensures number { IfOk result (λ n. n.0 ≡ length self.new) }
        ensures unchanged { OnErr result (self.new ≡ self.old) }
    {
        let number = self.next();
        let frozen = freezing::frozen_with(self.frozen, &item.what);
        returned_units::make_room(&mut self.returned_units, &item.what)?;
        if self.takers.push(None).is_err() {
            return Err(NoMemory);
        }
        if self.namers.push(None).is_err() {
            self.takers.truncate(number.0 as usize - 1);
            return Err(NoMemory);
        }
        if enter(&mut self.records, &mut self.master, number, item).is_err() {
            self.takers.truncate(number.0 as usize - 1);
            self.namers.truncate(number.0 as usize - 1);
            return Err(NoMemory);
        }
        let records = self.records.as_slice();
        let last = &records[number.0 as usize - 1];
        returned_units::add_units(&mut self.returned_units, &last.what);
        returned_units::take_cancelled(&mut self.returned_units, records, &last.what);
        takers::note(self.takers.as_mut_slice(), &last.what, Some(number));
        namers::note(self.namers.as_mut_slice(), &last.what, number);
        self.frozen = frozen;
        Ok(number)
    }

    /// Takes the last record away again: the journal is as it was before that record's `push`. It takes no memory.
    pub fn pop(&mut self)
        requires { 0 < length self.old }
        ensures { self.new ≡ take (length self.old - 1) self.old }
    {
        let index = self.records.len() - 1;
        let records = self.records.as_slice();
        let last = &records[index];
        returned_units::put_cancelled(&mut self.returned_units, records, &last.what);
        returned_units::take_units(&mut self.returned_units, &last.what);
        takers::note(self.takers.as_mut_slice(), &last.what, None);
        self.takers.truncate(index);
        self.namers.truncate(index);
        heads::take_away(&mut self.master, heads::made_by(&last.what));
        self.frozen = freezing::frozen_without(self.frozen, &records[..index], &last.what);
        self.records.truncate(index);
    }

    // The first record in force that names a line of the one with this number, where none before this first one names any.
    fn link_from(&self, first: RecordNo, number: RecordNo) -> Option<RecordNo>
        requires { (k : ℕ) (item : Record) → record_at self.now k ≡ Some item → names_line_of number.0 item.what ≡ true → first.0 ≤ k }
        ensures { result ≡ option_map record_number (first_link self.now number.0) }
    {
        let records = self.records.as_slice();
        for index in first.0.saturating_sub(1) as usize..records.len() {
            let by = RecordNo(index as u32 + 1);
            if self.is_live(by) && cancelling::names_line_of(number, &records[index].what) {
                return Some(by);
            }
        }
        None
    }

    // The number of the next record.
    fn next(&self) -> RecordNo
        ensures { result.0 ≡ length self.now + 1 }
    {
        RecordNo(self.records.len() as u32 + 1)
    }

    /// The record with this number. None exactly where the number is 0 or greater than the count.
    pub fn at(&self, number: RecordNo) -> Option<&Record>
        ensures { option_copied result ≡ record_at self.now number.0 }
    {
        if number.0 == 0 {
            return None;
        }
        self.records.as_slice().get(number.0 as usize - 1)
    }

    /// The record that takes back the one with this number. None exactly where none does. It looks at no record.
    pub fn taken_back_by(&self, number: RecordNo) -> Option<RecordNo>
        ensures in_force { (n : ℕ) → n ≤ length self.now → is_live (take n self.now) number.0 ≡ is_later n result }
        ensures within { IfSome result (λ by. by.0 ≤ length self.now) }
    {
        takers::taker(self.takers.as_slice(), number)
    }

    /// Up to which moment, this one included, the records close the past. None exactly where none of them closes any.
    /// It takes no memory.
    pub fn frozen(&self) -> Option<Moment>
        ensures { result ≡ frozen self.now }
    {
        self.frozen
    }

    /// How many records are held.
    pub fn count(&self) -> u32
        ensures count { result ≡ length self.now }
        ensures within { length self.now ≤ MAX_RECORDS }
    {
        self.records.len() as u32
    }

    /// The records in the order of their numbers.
    pub fn records(&self) -> &[Record]
        ensures records { result.now ≡ self.now }
        ensures within { length self.now ≤ MAX_RECORDS }
    {
        self.records.as_slice()
    }

    /// The movements of a record that is held.
    pub fn entries_of(&self, alloc: Global, number: RecordNo) -> Result<Lines<Entry>, NoMemory>
        requires one { 0 < number.0 }
        requires held { number.0 ≤ length self.now }
        ensures { IfOk result (λ es. es ≡ entries_of self.now number.0) }
    {
        let records = self.records.as_slice();
        let index = number.0 as usize - 1;
        let before = Listed {
            records: &records[..index],
        };
        movements::entries(alloc, &before, number, &records[index])
    }
}

// Adds the record with this number, and what it makes. A refusal changes nothing.
fn enter(
    records: &mut Vec<Record>,
    master: &mut Master,
    number: RecordNo,
    item: Record,
) -> Result<(), NoMemory>
    requires number { number.0 ≡ length records.old.items + 1 }
    requires unmade { made_fault master.old item.what ≡ None }
    ensures entered { OnOk result (records.new.items ≡ records.old.items ++ item ∷ []) }
    ensures made { OnOk result (master.new ≡ with_made master.old number.0 item.what) }
    ensures unchanged { OnErr result (records.new.items ≡ records.old.items) }
    ensures unmade { OnErr result (master.new ≡ master.old) }
{
    let made = heads::made_by(&item.what);
    if heads::add_made(master, number, &item.what).is_err() {
        return Err(NoMemory);
    }
    match records.push(item) {
        Ok(()) => Ok(()),
        Err(_) => {
            heads::take_away(master, made);
            Err(NoMemory)
        }
    }
}
