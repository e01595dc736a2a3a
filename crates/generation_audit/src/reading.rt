//! Stored records are read one by one, up to the first bad one.
ghost use Rattle.std.specs.Prelude.{◌≡◌, ◌⊎◌, ◌≤◌, length, take, OnOk, IfErr};
ghost use Rattle.kept_tables.specs.Openings.{AreStored};
ghost use Rattle.generation_audit.specs.Reading.{IsReadAs, IsBadNext, IsUnread};

use crate::legal_journal::{LegalJournal, NotAdded};
use kept_tables::checking::next_record;
use kept_tables::open_fault::OpenFault;
use std::alloc::Global;
use stock_keeper::tables::{StoredRecord, Tables};
use stock_nums::numbers::RecordNo;

/// Why records were not read.
#[derive(Clone, Copy, Debug, PartialEq, Eq)]
pub(crate) enum Unread {
    /// The record with this number, by its place, is none that may be stored there.
    Bad { number: u32 },
    /// Memory was wanting.
    NoMemory,
}

/// Reads the stored records from one index to another after those before.
///
/// # Errors
///
/// `Bad` with the number of the first that is none that may be stored there; `NoMemory`.
pub(crate) fn read_between(
    alloc: Global,
    journal: &mut LegalJournal,
    tables: &Tables,
    start: usize,
    end: usize,
) -> Result<(), Unread>
    requires stored { AreStored journal.old tables.now }
    requires before { length journal.old ≡ start }
    requires order { start ≤ end }
    requires within { end ≤ length tables.now.records }
    ensures stored { OnOk result (AreStored journal.new tables.now) }
    ensures all { OnOk result (length journal.new ≡ end) }
    ensures front { OnOk result (take start journal.new ≡ journal.old) }
    ensures fault { IfErr result (IsUnread tables.now) }
{
    let kept = tables.records.as_slice();
    for index in start..end {
        if let Err(fault) = read_one(alloc, journal, &kept[index]) {
            return Err(fault);
        }
    }
    Ok(())
}

// Reads the record that is stored so as the next one.
fn read_one(alloc: Global, journal: &mut LegalJournal, kept: &StoredRecord) -> Result<(), Unread>
    ensures read { OnOk result (IsReadAs journal.old kept.now journal.new) }
    ensures fault { IfErr result (IsBadNext journal.old kept.now) }
{
    let number = RecordNo(journal.records().len() as u32 + 1);
    let item = match next_record(alloc, number, kept) {
        Ok(item) => item,
        Err(fault) => return Err(why_unread(fault, number)),
    };
    match journal.add(alloc, item) {
        Ok(()) => Ok(()),
        Err(fault) => Err(why_unadded(fault, number)),
    }
}

// Why a record is not read.
fn why_unread(fault: OpenFault, number: RecordNo) -> Unread
    ensures memory { fault ≡ OpenFault.NoMemory → result ≡ Unread.NoMemory }
    ensures told { (result ≡ Unread.NoMemory) ⊎ (result ≡ Unread.Bad number.0) }
{
    match fault {
        OpenFault::NoMemory => Unread::NoMemory,
        _ => Unread::Bad { number: number.0 },
    }
}

// Why a record that was read is not added.
fn why_unadded(fault: NotAdded, number: RecordNo) -> Unread
    ensures memory { fault ≡ NotAdded.NoMemory → result ≡ Unread.NoMemory }
    ensures faulty { fault ≡ NotAdded.Faulty → result ≡ Unread.Bad number.0 }
{
    match fault {
        NotAdded::NoMemory => Unread::NoMemory,
        NotAdded::Faulty => Unread::Bad { number: number.0 },
    }
}
