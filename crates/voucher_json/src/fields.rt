//! The fields of an object by name, each of a form.
ghost use Rattle.std.specs.Prelude.{◌≡◌, ◌≤◌, IsTrue, IfOk, IfSome, option_map, option_and_then};
ghost use Rattle.serde_json.specs.View.{view};
ghost use Rattle.serde_json.specs.Find.{get, as_str};
ghost use Rattle.voucher_json.specs.FieldNames.{field_text};
ghost use Rattle.voucher_json.specs.Walks.{Field, Optional, OrNoMemory};
ghost use Rattle.voucher_json.specs.Fields.{IsText, IsWord, IsNumber, IsMoment};
ghost use Rattle.voucher_json.specs.Records.{record_kinds, methods, purposes, bases};
ghost use Rattle.stock_nums.specs.Quantities.{is_line_amount};
ghost use Rattle.voucher_json.specs.Tables.{IsMoney};
ghost use Rattle.voucher_json.specs.Requests.{kinds, sheets, formats};

use crate::field_names::field_text;
use crate::forms::{code_in, moment_in, number_in};
use crate::kinds::{
    Kind, RecordKind, SheetKind, basis_named, format_named, kind_named, method_named,
    purpose_named, record_kind_named, sheet_kind_named,
};
use serde_json::Value;
use std::alloc::Global;
use stock_model::queries::Format;
use stock_model::read_faults::{FieldName, ReadFault};
use stock_model::vouchers::{Basis, Purpose};
use stock_nums::cause::Method;
use stock_nums::code::Code;
use stock_nums::limits::MAX_AMOUNT;
use stock_nums::moment::Moment;
use stock_nums::numbers::Minor;

/// The code in a field.
pub fn code_field(
    alloc: Global,
    object: &Value,
    name: FieldName,
    line: u32,
) -> Result<Code, ReadFault>
    ensures { OrNoMemory (Field IsText name line (view object.now)) result }
{
    match object.get(field_text(name)) {
        Some(value) => code_in(alloc, value, name, line),
        None => Err(ReadFault::BadField { name, line }),
    }
}

/// The code in a field that may be missing.
pub fn optional_code(
    alloc: Global,
    object: &Value,
    name: FieldName,
) -> Result<Option<Code>, ReadFault>
    ensures { OrNoMemory (Optional IsText name (view object.now)) result }
{
    match object.get(field_text(name)) {
        Some(value) => Ok(Some(code_in(alloc, value, name, 0)?)),
        None => Ok(None),
    }
}

/// The whole number in a field, from the least to the most.
pub fn number_field(
    object: &Value,
    name: FieldName,
    line: u32,
    least: u64,
    most: u64,
) -> Result<u64, ReadFault>
    ensures outcome { Field (IsNumber least most) name line (view object.now) result }
    ensures range { IfOk result (λ n. (least ≤ n) × (n ≤ most)) }
{
    match object.get(field_text(name)) {
        Some(value) => number_in(value, name, line, least, most),
        None => Err(ReadFault::BadField { name, line }),
    }
}

/// The money in a field, from 0 to 10^12 minor units.
pub fn amount_field(object: &Value, name: FieldName, line: u32) -> Result<Minor, ReadFault>
    ensures outcome { Field IsMoney name line (view object.now) result }
    ensures range { IfOk result (λ amount. IsTrue (is_line_amount amount.0)) }
{
    let amount = number_field(object, name, line, 0, MAX_AMOUNT)?;
    Ok(Minor(amount as i64))
}

/// The whole number in a field that may be missing, from the least to the most.
pub fn optional_number(
    object: &Value,
    name: FieldName,
    least: u64,
    most: u64,
) -> Result<Option<u64>, ReadFault>
    ensures outcome { Optional (IsNumber least most) name (view object.now) result }
    ensures range { IfOk result (λ found. IfSome found (λ n. (least ≤ n) × (n ≤ most))) }
{
    match object.get(field_text(name)) {
        Some(value) => Ok(Some(number_in(value, name, 0, least, most)?)),
        None => Ok(None),
    }
}

/// The moment in a field of the outer object.
pub fn moment_field(object: &Value, name: FieldName) -> Result<Moment, ReadFault>
    ensures { Field IsMoment name 0 (view object.now) result }
{
    match object.get(field_text(name)) {
        Some(value) => moment_in(value, name, 0),
        None => Err(ReadFault::BadField { name, line: 0 }),
    }
}

/// The moment in a field that may be missing.
pub fn optional_moment(object: &Value, name: FieldName) -> Result<Option<Moment>, ReadFault>
    ensures { Optional IsMoment name (view object.now) result }
{
    match object.get(field_text(name)) {
        Some(value) => Ok(Some(moment_in(value, name, 0)?)),
        None => Ok(None),
    }
}

/// The text in a field, if it is there and is a text.
fn text_at(object: &Value, name: FieldName) -> Option<&str>
    ensures { option_map (λ text. text.now) result ≡ option_and_then as_str (get (field_text name) (view object.now)) }
{
    object.get(field_text(name)).and_then(Value::as_str)
}

/// What the request does.
pub fn kind_field(object: &Value, at_desk: bool) -> Result<Kind, ReadFault>
    ensures { Field (IsWord (kinds at_desk)) FieldName.Do 0 (view object.now) result }
{
    let kind = match text_at(object, FieldName::Do) {
        Some(word) => kind_named(word, at_desk),
        None => None,
    };
    kind.ok_or(ReadFault::BadField {
        name: FieldName::Do,
        line: 0,
    })
}

/// What the record is of.
pub fn record_kind_field(object: &Value) -> Result<RecordKind, ReadFault>
    ensures { Field (IsWord record_kinds) FieldName.Do 0 (view object.now) result }
{
    text_at(object, FieldName::Do)
        .and_then(record_kind_named)
        .ok_or(ReadFault::BadField {
            name: FieldName::Do,
            line: 0,
        })
}

/// The item's cost formula.
pub fn method_field(object: &Value) -> Result<Method, ReadFault>
    ensures { Field (IsWord methods) FieldName.Method 0 (view object.now) result }
{
    text_at(object, FieldName::Method)
        .and_then(method_named)
        .ok_or(ReadFault::BadField {
            name: FieldName::Method,
            line: 0,
        })
}

/// What the goods were issued for.
pub fn purpose_field(object: &Value) -> Result<Purpose, ReadFault>
    ensures { Field (IsWord purposes) FieldName.Use 0 (view object.now) result }
{
    text_at(object, FieldName::Use)
        .and_then(purpose_named)
        .ok_or(ReadFault::BadField {
            name: FieldName::Use,
            line: 0,
        })
}

/// By what a charge is parted.
pub fn basis_field(object: &Value) -> Result<Basis, ReadFault>
    ensures { Field (IsWord bases) FieldName.Basis 0 (view object.now) result }
{
    text_at(object, FieldName::Basis)
        .and_then(basis_named)
        .ok_or(ReadFault::BadField {
            name: FieldName::Basis,
            line: 0,
        })
}

/// What the sheet of the report is of.
pub fn sheet_kind_field(object: &Value) -> Result<SheetKind, ReadFault>
    ensures { Field (IsWord sheets) FieldName.Of 0 (view object.now) result }
{
    text_at(object, FieldName::Of)
        .and_then(sheet_kind_named)
        .ok_or(ReadFault::BadField {
            name: FieldName::Of,
            line: 0,
        })
}

/// How the rows are to be written, if the report says so.
pub fn format_field(object: &Value) -> Result<Option<Format>, ReadFault>
    ensures { Optional (IsWord formats) FieldName.As (view object.now) result }
{
    let Some(value) = object.get(field_text(FieldName::As)) else {
        return Ok(None);
    };
    match value.as_str().and_then(format_named) {
        Some(format) => Ok(Some(format)),
        None => Err(ReadFault::BadField {
            name: FieldName::As,
            line: 0,
        }),
    }
}
