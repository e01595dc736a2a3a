//! A stored text as the record that it is.
ghost use Rattle.std.specs.Prelude.{◌≡◌, ◌⊎◌, ℕ, List, Result, Ok, Err, IfOk, IfErr, IsUtf8};
ghost use Rattle.serde_json.specs.View.{view};
ghost use Rattle.stock_model.specs.declared.read_faults.ReadFault.{ReadFault};
ghost use Rattle.stock_model.specs.declared.records.Record.{Record};
ghost use Rattle.voucher_json.specs.RecordTexts.{record_text};
ghost use Rattle.voucher_json.specs.StoredRecords.{IsRecord, IsRecordReadAs};
ghost use Rattle.voucher_json.specs.Walks.{OrNoMemory};

use crate::fields::{number_field, record_kind_field};
use crate::forms::check_object;
use crate::json_values::json_value;
use crate::whats::read_what;
use serde_json::Value;
use std::alloc::Global;
use stock_model::read_faults::{FieldName, ReadFault};
use stock_model::records::Record;
use stock_nums::limits::MAX_DESK;
use stock_nums::numbers::DeskNo;

/// The record that a stored text is, or the first fault of the walk over its fields, however the text is spelled.
/// Whether it is spelled as it is stored, `record_texts::is_text_of` says.
pub fn read_record(alloc: Global, bytes: &[u8]) -> Result<Record, ReadFault>
    ensures read { IfOk result (λ found. IsRecordReadAs bytes.now (Ok found)) }
    ensures fault { IfErr result (λ f. (f ≡ ReadFault.NoMemory) ⊎ IsRecordReadAs bytes.now (Err f)) }
{
    let value = json_value(alloc, bytes)?;
    record_of(alloc, &value)
}

/// A stored text is read in one way at most, and none is read as want of memory. What is written of a record
/// is read as that record.
pub fn stored_records_have_one_reading()
    ensures one { (text : List ℕ) (a b : Result Record ReadFault) → IsRecordReadAs text a → IsRecordReadAs text b → a ≡ b }
    ensures memory { (text : List ℕ) → IsRecordReadAs text (Err ReadFault.NoMemory) → ⊥ }
    ensures round { (r : Record) → IsUtf8 (record_text r) → IsRecordReadAs (record_text r) (Ok r) }
{}

/// The record that a JSON value is.
fn record_of(alloc: Global, value: &Value) -> Result<Record, ReadFault>
    ensures { OrNoMemory (IsRecord (view value.now)) result }
{
    check_object(value, FieldName::Request, 0)?;
    let kind = record_kind_field(value)?;
    let desk = number_field(value, FieldName::Desk, 0, 0, MAX_DESK)?;
    let what = read_what(alloc, value, &[FieldName::Do, FieldName::Desk], kind)?;
    Ok(Record {
        desk: DeskNo(desk as u32),
        what,
    })
}
