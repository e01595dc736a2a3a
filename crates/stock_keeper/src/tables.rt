//! The tables in which a ledger is kept.
ghost use Rattle.std.specs.Prelude.{◌≡◌, ◌∷◌, ◌++◌, OnOk, OnErr, IfOk};
ghost use Rattle.stock_keeper.specs.Changed.{new_tables, stored, appended, published};
ghost use Rattle.stock_keeper.specs.Worths.{AreInOrder};

use crate::changes::{Changes, SpotWorth};
use crate::worths;
use std::alloc::Global;
use stock_nums::lines::Lines;
use stock_nums::memory::NoMemory;
use stock_nums::numbers::RecordNo;

/// The version of the tables that are written now. Those of version 1 are kept alike, by programs that may not know records that close
/// the past or take another back.
pub const VERSION: i64 = 2;

/// A record as it is kept.
#[derive(Drop)]
pub struct StoredRecord {
    /// Its place among the records, from 1. A damaged table may have any number here.
    pub number: i64,
    /// Its text.
    pub body: Lines<u8>,
}

/// All that is kept of a ledger.
#[derive(Drop)]
pub struct Tables {
    /// The version of the format, which is `VERSION` where this program wrote them.
    pub version: i64,
    /// The accepted records, in order.
    pub records: Lines<StoredRecord>,
    /// How many of the records the worths are made from.
    pub covered: i64,
    /// What each movement is worth, by record, line and side.
    pub worths: Lines<SpotWorth>,
}

impl Tables {
    /// Tables in which nothing is kept yet.
    pub(crate) fn new(alloc: Global) -> Tables
        ensures { result ≡ new_tables }
    {
        Tables {
            version: VERSION,
            records: Lines::new(alloc),
            covered: 0,
            worths: Lines::new(alloc),
        }
    }

    /// Adds a record at the end. For want of memory nothing is added.
    pub(crate) fn append(
        &mut self,
        alloc: Global,
        number: RecordNo,
        body: &[u8],
    ) -> Result<(), NoMemory>
        ensures added { OnOk result (self.new ≡ appended number body.now self.old) }
        ensures unchanged { OnErr result (self.new ≡ self.old) }
    {
        let body = Lines::from_vec(body.to_vec(alloc)?);
        self.records.push(StoredRecord {
            number: i64::from(number.0),
            body,
        })
    }

    /// These tables with one more record at the end.
    pub(crate) fn with_record(
        &self,
        alloc: Global,
        number: RecordNo,
        body: &[u8],
    ) -> Result<Tables, NoMemory>
        ensures { IfOk result (λ made. made ≡ appended number body.now self.now) }
    {
        let mut made = self.copy(alloc)?;
        made.append(alloc, number, body)?;
        Ok(made)
    }

    /// Changes the worths, and says from how many records they are made now. For want of memory nothing is
    /// changed.
    pub(crate) fn publish(
        &mut self,
        alloc: Global,
        covered: RecordNo,
        changes: &Changes,
    ) -> Result<(), NoMemory>
        requires { AreInOrder self.old.worths }
        ensures changed { OnOk result (self.new ≡ published covered changes.now self.old) }
        ensures unchanged { OnErr result (self.new ≡ self.old) }
        ensures in_order { AreInOrder self.new.worths }
    {
        let made = worths::changed(alloc, self.worths.as_slice(), changes)?;
        self.worths = Lines::from_vec(made);
        self.covered = i64::from(covered.0);
        Ok(())
    }

    /// These tables with the changes.
    pub(crate) fn with_changes(
        &self,
        alloc: Global,
        covered: RecordNo,
        changes: &Changes,
    ) -> Result<Tables, NoMemory>
        requires { AreInOrder self.now.worths }
        ensures changed { IfOk result (λ made. made ≡ published covered changes.now self.now) }
        ensures in_order { IfOk result (λ made. AreInOrder made.worths) }
    {
        let mut made = self.copy(alloc)?;
        made.publish(alloc, covered, changes)?;
        Ok(made)
    }

    /// A copy of these tables.
    pub(crate) fn copy(&self, alloc: Global) -> Result<Tables, NoMemory>
        ensures { IfOk result (λ copy. copy ≡ self.now) }
    {
        Ok(Tables {
            version: self.version,
            records: copied(alloc, self.records.as_slice())?,
            covered: self.covered,
            worths: Lines::from_vec(self.worths.as_slice().to_vec(alloc)?),
        })
    }
}

// A copy of the records.
fn copied(alloc: Global, records: &[StoredRecord]) -> Result<Lines<StoredRecord>, NoMemory>
    ensures { IfOk result (λ copy. copy ≡ records.now) }
{
    let mut copy = Lines::new(alloc);
    for record in records {
        copy.push(StoredRecord {
            number: record.number,
            body: Lines::from_vec(record.body.as_slice().to_vec(alloc)?),
        })?;
    }
    Ok(copy)
}
