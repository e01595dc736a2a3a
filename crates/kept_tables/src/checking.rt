//! What of opened tables is checked without a book: their head, one stored record, and the stored worths.
ghost use Rattle.std.specs.Prelude.{◌≡◌, ◌≢◌, ◌⊎◌, ◌≤◌, ℕ, List, pos, length, Ok, Err, IfOk, IfErr, OnOk, IsUtf8};
ghost use Rattle.stock_model.specs.declared.read_faults.ReadFault.{ReadFault};
ghost use Rattle.stock_model.specs.declared.records.Record.{Record};
ghost use Rattle.stock_keeper.specs.Changed.{current_version, stored};
ghost use Rattle.stock_keeper.specs.Worths.{AreInOrder};
ghost use Rattle.voucher_json.specs.RecordTexts.{record_text};
ghost use Rattle.voucher_json.specs.StoredRecords.{IsRecordReadAs};
ghost use Rattle.kept_tables.specs.Differences.{worth_at, IsFirstDifference};
ghost use Rattle.kept_tables.specs.Openings.{HasBadHead, told_records};
ghost use Rattle.kept_tables.specs.TablesOf.{worths_of};
ghost use Rattle.kept_tables.specs.declared.differing.Difference.{Difference};

use crate::differing::first_difference;
use crate::open_fault::OpenFault;
use shared_list::blocks::SharedBlocks;
use std::alloc::Global;
use stock_keeper::changes::SpotWorth;
use stock_keeper::tables::{StoredRecord, Tables, VERSION};
use stock_model::read_faults::ReadFault;
use stock_model::records::Record;
use stock_nums::entry::Row;
use stock_nums::numbers::RecordNo;
use voucher_json::record_reading::read_record;
use voucher_json::record_texts::is_text_of;
use voucher_json::usual_records::usual_record;

/// How many records the worths are made from, from 0 to the number of records. The only error is a bad head: another
/// version than the one that is written, or another number covered.
pub fn covered_of(tables: &Tables) -> Result<usize, OpenFault>
    ensures head { IfOk result (λ covered. HasBadHead tables.now → ⊥) }
    ensures version { IfOk result (λ covered. tables.now.version ≡ current_version) }
    ensures covered { IfOk result (λ covered. tables.now.covered ≡ pos covered) }
    ensures within { IfOk result (λ covered. covered ≤ length tables.now.records) }
    ensures bad { IfErr result (λ f. HasBadHead tables.now) }
    ensures told { IfErr result (λ f. f ≡ OpenFault.BadHead tables.now.version tables.now.covered (told_records tables.now)) }
{
    let records = tables.records.len();
    let Ok(covered) = usize::try_from(tables.covered) else {
        return Err(bad_head(tables));
    };
    if tables.version != VERSION || covered > records {
        return Err(bad_head(tables));
    }
    Ok(covered)
}

// What is told of a bad head.
fn bad_head(tables: &Tables) -> OpenFault
    ensures { result ≡ OpenFault.BadHead tables.now.version tables.now.covered (told_records tables.now) }
{
    OpenFault::BadHead {
        version: tables.version,
        covered: tables.covered,
        records: u32::try_from(tables.records.len()).unwrap_or(u32::MAX),
    }
}

/// The one record that is kept so under this number. The errors are want of memory, and a bad stored record: its
/// number is another one, or its text is none as it would be written of a record.
pub fn next_record(
    alloc: Global,
    number: RecordNo,
    kept: &StoredRecord,
) -> Result<Record, OpenFault>
    ensures ok { IfOk result (λ item. kept.now ≡ stored number (record_text item)) }
    ensures one { IfOk result (λ item. (other : Record) → IsUtf8 (record_text other) → record_text other ≡ record_text item
        → other ≡ item) }
    ensures utf8 { IfOk result (λ item. IsUtf8 (record_text item)) }
    ensures fault { IfErr result (λ f. (f ≡ OpenFault.NoMemory) ⊎ ((f ≡ OpenFault.BadStored number.0)
        × ((item : Record) → IsUtf8 (record_text item) → kept.now ≢ stored number (record_text item)))) }
{
    if kept.number != i64::from(number.0) {
        return Err(OpenFault::BadStored { number: number.0 });
    }
    written(alloc, number, kept.body.as_slice())
}

// The one record of which this text is written.
fn written(alloc: Global, number: RecordNo, text: &[u8]) -> Result<Record, OpenFault>
    ensures ok { IfOk result (λ item. text.now ≡ record_text item) }
    ensures one { IfOk result (λ item. (other : Record) → IsUtf8 (record_text other) → record_text other ≡ record_text item
        → other ≡ item) }
    ensures utf8 { IfOk result (λ item. IsUtf8 (record_text item)) }
    ensures fault { IfErr result (λ f. (f ≡ OpenFault.NoMemory) ⊎ ((f ≡ OpenFault.BadStored number.0)
        × ((item : Record) → IsUtf8 (record_text item) → text.now ≢ record_text item))) }
{
    let Ok(usual) = usual_record(alloc, text) else {
        return Err(OpenFault::NoMemory);
    };
    match usual {
        Some(item) => Ok(item),
        None => written_at_length(alloc, number, text),
    }
}

// The same, by a record's JSON value and the text that is written of it.
fn written_at_length(alloc: Global, number: RecordNo, text: &[u8]) -> Result<Record, OpenFault>
    ensures ok { IfOk result (λ item. text.now ≡ record_text item) }
    ensures one { IfOk result (λ item. (other : Record) → IsUtf8 (record_text other) → record_text other ≡ record_text item
        → other ≡ item) }
    ensures utf8 { IfOk result (λ item. IsUtf8 (record_text item)) }
    ensures fault { IfErr result (λ f. (f ≡ OpenFault.NoMemory) ⊎ ((f ≡ OpenFault.BadStored number.0)
        × ((item : Record) → IsUtf8 (record_text item) → text.now ≢ record_text item))) }
{
    let item = match read(alloc, number, text) {
        Ok(item) => item,
        Err(fault) => return Err(fault),
    };
    let Ok(same) = is_text_of(alloc, &item, text) else {
        return Err(OpenFault::NoMemory);
    };
    if !same {
        return Err(OpenFault::BadStored { number: number.0 });
    }
    Ok(item)
}

// The record that this text is, however it is spelled.
fn read(alloc: Global, number: RecordNo, text: &[u8]) -> Result<Record, OpenFault>
    ensures read { IfOk result (λ item. IsRecordReadAs text.now (Ok item)) }
    ensures fault { IfErr result (λ f. (f ≡ OpenFault.NoMemory) ⊎ ((f ≡ OpenFault.BadStored number.0)
        × ((item : Record) → IsRecordReadAs text.now (Ok item) → ⊥))) }
{
    match read_record(alloc, text) {
        Ok(item) => Ok(item),
        Err(fault) => Err(unread(fault, number)),
    }
}

// Why a record is not opened whose text was not read.
fn unread(fault: ReadFault, number: RecordNo) -> OpenFault
    ensures memory { fault ≡ ReadFault.NoMemory → result ≡ OpenFault.NoMemory }
    ensures told { (result ≡ OpenFault.NoMemory) ⊎ (result ≡ OpenFault.BadStored number.0) }
{
    match fault {
        ReadFault::NoMemory => OpenFault::NoMemory,
        _ => OpenFault::BadStored { number: number.0 },
    }
}

/// Checks that the stored worths are those of the rows. The errors are want of memory, and the first difference.
pub fn check_worths(
    alloc: Global,
    kept: &[SpotWorth],
    rows: &SharedBlocks<Row>,
) -> Result<(), OpenFault>
    requires { AreInOrder kept.now }
    ensures same { OnOk result (kept.now ≡ worths_of rows.now) }
    ensures fault { IfErr result (λ f. (f ≡ OpenFault.NoMemory) ⊎ ((d : Difference) × (f ≡ OpenFault.StoredDiffers d)
        × IsFirstDifference kept.now (worths_of rows.now) d.spot
        × (d.stored ≡ worth_at kept.now d.spot)
        × (d.replayed ≡ worth_at (worths_of rows.now) d.spot))) }
{
    let Ok(found) = first_difference(alloc, kept, rows) else {
        return Err(OpenFault::NoMemory);
    };
    match found {
        Some(difference) => Err(OpenFault::StoredDiffers(difference)),
        None => Ok(()),
    }
}
