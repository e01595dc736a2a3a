//! Records are fetched from a journal: the movements that come and go and the charges are read out, so that who revalues needs
//! no journal.
ghost use Rattle.std.specs.Prelude.{◌≡◌, ◌≤◌, ◌++◌, length, take, drop, IfOk, OnOk};
ghost use Rattle.cost_links.specs.Charged.{charge_pairs};
ghost use Rattle.repost_fetch.specs.Fetched.{IsFetchedOf, going, uncharged_after};
ghost use Rattle.repost_laws.specs.Changes.{coming};

use crate::taken_back::{has_cancel, is_in_force, is_taken};
use cost_links::charges::{Charge, charges_from};
use std::alloc::Global;
use stock_nums::entry::Entry;
use stock_nums::lines::Lines;
use stock_nums::memory::NoMemory;
use stock_nums::numbers::RecordNo;
use voucher_kinds::journal::Journal;

/// What further records of a journal bring and take back: the movements that come and that go, in the order of the records, and
/// what is charged to lines of receipts, voucher by voucher.
#[derive(Drop)]
pub struct Fetched {
    /// How many records there were before.
    pub after: RecordNo,
    /// How many there are with these.
    pub upto: RecordNo,
    /// The movements of further records, those that further ones take back left out.
    pub entries: Lines<Entry>,
    /// What all further records charge, also those that further ones take back.
    pub charges: Lines<Charge>,
    /// The movements of earlier records that further ones take back.
    pub gone: Lines<Entry>,
    /// What the records charge that further ones take back.
    pub uncharged: Lines<Charge>,
}

/// What the records of the journal after the first `after` ones bring and take back, nothing where there are no more. It reads
/// those that come or go, and the lines that they name. Only where one of them takes another record back does it go over the
/// earlier ones, and asks of each whether a later one takes it back.
pub fn fetch(alloc: Global, journal: &Journal, after: RecordNo) -> Result<Fetched, NoMemory>
    requires within { after.0 ≤ length journal.now }
    ensures { IfOk result (IsFetchedOf (take after.0 journal.now) (drop after.0 journal.now)) }
{
    let upto = RecordNo(journal.count());
    Ok(Fetched {
        after,
        upto,
        entries: entries_coming(alloc, journal, after)?,
        charges: charges_from(alloc, journal.records(), after.0 as usize)?,
        gone: entries_going(alloc, journal, after)?,
        uncharged: charges_going(alloc, journal, after)?,
    })
}

// The movements of the records after the first `after` ones that are in force.
fn entries_coming(
    alloc: Global,
    journal: &Journal,
    after: RecordNo,
) -> Result<Lines<Entry>, NoMemory>
    requires within { after.0 ≤ length journal.now }
    ensures { IfOk result (λ es. es ≡ coming (take after.0 journal.now) (drop after.0 journal.now)) }
{
    let upto = RecordNo(journal.count());
    let mut entries = Lines::new(alloc);
    for index in after.0..upto.0 {
        let number = RecordNo(index + 1);
        if is_in_force(journal, upto, number) {
            let own = journal.entries_of(alloc, number)?;
            push_all(&mut entries, own.as_slice())?;
        }
    }
    Ok(entries)
}

// The movements of those of the first `after` records that later ones take back.
fn entries_going(
    alloc: Global,
    journal: &Journal,
    after: RecordNo,
) -> Result<Lines<Entry>, NoMemory>
    requires within { after.0 ≤ length journal.now }
    ensures { IfOk result (λ es. es ≡ going (take after.0 journal.now) (drop after.0 journal.now)) }
{
    if !has_cancel(&journal.records()[after.0 as usize..]) {
        return Ok(Lines::new(alloc));
    }
    let mut entries = Lines::new(alloc);
    for index in 0..after.0 {
        let number = RecordNo(index + 1);
        if is_taken(journal, after, number) {
            let own = journal.entries_of(alloc, number)?;
            push_all(&mut entries, own.as_slice())?;
        }
    }
    Ok(entries)
}

// What those of all records charge that records after the first `after` ones take back.
fn charges_going(
    alloc: Global,
    journal: &Journal,
    after: RecordNo,
) -> Result<Lines<Charge>, NoMemory>
    requires within { after.0 ≤ length journal.now }
    ensures { IfOk result (λ charges. charge_pairs charges ≡ uncharged_after (take after.0 journal.now) (drop after.0 journal.now)) }
{
    let records = journal.records();
    if !has_cancel(&records[after.0 as usize..]) {
        return Ok(Lines::new(alloc));
    }
    let mut charges = Lines::new(alloc);
    for index in 0..journal.count() {
        let number = RecordNo(index + 1);
        if is_taken(journal, after, number) {
            let own = charges_from(alloc, &records[..number.0 as usize], index as usize)?;
            push_charges(&mut charges, own.as_slice())?;
        }
    }
    Ok(charges)
}

// Adds movements at the end.
fn push_all(entries: &mut Lines<Entry>, new: &[Entry]) -> Result<(), NoMemory>
    ensures { OnOk result (entries.new ≡ entries.old ++ new.now) }
{
    for entry in new {
        entries.push(*entry)?;
    }
    Ok(())
}

// Adds charges at the end.
fn push_charges(charges: &mut Lines<Charge>, new: &[Charge]) -> Result<(), NoMemory>
    ensures { OnOk result (charges.new ≡ charges.old ++ new.now) }
{
    for charge in new {
        charges.push(*charge)?;
    }
    Ok(())
}
