//! All movements of a journal in posting order, put in one by one.
ghost use Rattle.std.specs.Prelude.{◌≡◌, ◌^◌, ◌<◌, ◌≤◌, length, insert, filter, IfOk, OnOk, OnErr};
ghost use Rattle.stock_model.specs.Entries.{is_live_entry};
ghost use Rattle.stock_model.specs.PostingOrder.{put, put_all, posting_line};

use crate::cancelling::is_live;
use crate::movements::entries;
use crate::names::Listed;
use crate::records::Record;
use std::alloc::Global;
use stock_nums::entry::Entry;
use stock_nums::lines::Lines;
use stock_nums::memory::NoMemory;
use stock_nums::numbers::RecordNo;

// Where the entry goes: the index of the first that comes after it.
fn index_for(line: &[Entry], entry: &Entry) -> usize
    ensures within { result ≤ length line.now }
    ensures place { put line.now entry.now ≡ insert line.now result entry.now }
{
    for (index, other) in line.iter().enumerate() {
        if entry.place.is_before(&other.place) {
            return index;
        }
    }
    line.len()
}

/// Puts an entry before the first that comes after it.
pub fn put(line: &mut Lines<Entry>, entry: Entry) -> Result<(), NoMemory>
    ensures added { OnOk result (line.new ≡ put line.old entry) }
    ensures unchanged { OnErr result (line.new ≡ line.old) }
{
    let index = index_for(line.as_slice(), &entry);
    line.insert(index, entry)
}

/// Puts the entries among those of the line, one after another. For want of memory some may be missing.
pub fn put_all(line: &mut Lines<Entry>, entries: &[Entry]) -> Result<(), NoMemory>
    ensures { OnOk result (line.new ≡ put_all line.old entries.now) }
{
    for entry in entries {
        put(line, *entry)?;
    }
    Ok(())
}

// Puts those of the entries among those of the line whose records are in force.
fn put_live(line: &mut Lines<Entry>, records: &[Record], entries: &[Entry]) -> Result<(), NoMemory>
    ensures { OnOk result (line.new ≡ put_all line.old (filter (is_live_entry records.now) entries.now)) }
{
    for entry in entries {
        if is_live(records, entry.place.voucher) {
            put(line, *entry)?;
        }
    }
    Ok(())
}

/// The movements of all records of a journal that are in force, in posting order.
pub fn posting_line(alloc: Global, records: &[Record]) -> Result<Lines<Entry>, NoMemory>
    requires { length records.now < 2 ^ 32 }
    ensures { IfOk result (λ line. line ≡ posting_line records.now) }
{
    let mut line = Lines::new(alloc);
    for index in 0..records.len() {
        let before = Listed {
            records: &records[..index],
        };
        let number = RecordNo(index as u32 + 1);
        let new = entries(alloc, &before, number, &records[index])?;
        put_live(&mut line, records, new.as_slice())?;
    }
    Ok(line)
}
