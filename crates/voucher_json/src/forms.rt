//! The forms of the fields: what the value of a field comes to. A fault names the field, and the place from
//! 1 of the list's element that has it, or 0 for a field of the outer object.
ghost use Rattle.std.specs.Prelude.{◌≡◌, ◌≤◌, ◌++◌, IfOk, IfErr, Ok, Err, not, length, string_bytes};
ghost use Rattle.std.specs.List.{list_any};
ghost use Rattle.std.specs.BTreeMap.{keys};
ghost use Rattle.serde_json.specs.View.{view, items_view};
ghost use Rattle.serde_json.specs.Find.{as_str, as_array};
ghost use Rattle.stock_model.specs.declared.read_faults.ReadFault.{ReadFault};
ghost use Rattle.voucher_json.specs.Walks.{OrNoMemory};
ghost use Rattle.voucher_json.specs.Fields.{IsObject, IsText, IsNumber, IsMoment, IsMomentText, list_outcome, is_named, NoOther};

use crate::field_names::field_text;
use serde_json::{Map, Value};
use std::alloc::Global;
use stock_model::read_faults::{FieldName, ReadFault};
use stock_nums::code::Code;
use stock_nums::limits::MAX_LINES;
use stock_nums::moment::Moment;
use stock_nums::moment_text::{MomentFault, read_moment};

/// Whether the value is an object.
pub fn check_object(value: &Value, name: FieldName, line: u32) -> Result<(), ReadFault>
    ensures { IsObject name line (view value.now) result }
{
    if value.is_object() {
        Ok(())
    } else {
        Err(ReadFault::BadField { name, line })
    }
}

/// The code that the value spells.
pub fn code_in(alloc: Global, value: &Value, name: FieldName, line: u32) -> Result<Code, ReadFault>
    ensures { OrNoMemory (IsText name line (view value.now)) result }
{
    let Some(text) = value.as_str() else {
        return Err(ReadFault::BadField { name, line });
    };
    match Code::of(alloc, text) {
        Ok(code) => Ok(code),
        Err(_) => Err(ReadFault::NoMemory),
    }
}

/// The whole number that the value is, from the least to the most.
pub fn number_in(
    value: &Value,
    name: FieldName,
    line: u32,
    least: u64,
    most: u64,
) -> Result<u64, ReadFault>
    ensures outcome { IsNumber least most name line (view value.now) result }
    ensures range { IfOk result (λ n. (least ≤ n) × (n ≤ most)) }
{
    match value.as_u64() {
        Some(n) if least <= n && n <= most => Ok(n),
        Some(_) => Err(ReadFault::Limit { name, line }),
        None if value.is_i64() => Err(ReadFault::Limit { name, line }),
        None => Err(ReadFault::BadField { name, line }),
    }
}

/// The moment that the value spells.
pub fn moment_in(value: &Value, name: FieldName, line: u32) -> Result<Moment, ReadFault>
    ensures { IsMoment name line (view value.now) result }
{
    match value.as_str() {
        Some(text) => moment_of(text, name, line),
        None => Err(ReadFault::BadField { name, line }),
    }
}

/// The moment that the text spells.
fn moment_of(text: &str, name: FieldName, line: u32) -> Result<Moment, ReadFault>
    ensures { IsMomentText name line text.now result }
{
    match read_moment(text.as_bytes()) {
        Ok(moment) => Ok(moment),
        Err(MomentFault::Shape) => Err(ReadFault::BadField { name, line }),
        Err(MomentFault::Range) => Err(ReadFault::Limit { name, line }),
    }
}

/// The elements of the list that the value is, 1 to 100 of them.
pub fn elements_in(value: &Value, name: FieldName, line: u32) -> Result<&[Value], ReadFault>
    ensures ok { IfOk result (λ values. list_outcome name line (as_array (view value.now)) ≡ Ok (items_view values.now)) }
    ensures count { IfOk result (λ values. (1 ≤ length values.now) × (length values.now ≤ MAX_LINES)) }
    ensures err { IfErr result (λ fault. list_outcome name line (as_array (view value.now)) ≡ Err fault) }
{
    let Some(values) = value.as_array() else {
        return Err(ReadFault::BadField { name, line });
    };
    if values.is_empty() {
        return Err(ReadFault::Limit { name, line });
    }
    if values.len() > MAX_LINES {
        return Err(ReadFault::Limit { name, line });
    }
    Ok(values.as_slice())
}

/// Whether the object has no fields but the shared ones and its own.
pub fn no_other(
    object: &Value,
    shared: &[FieldName],
    own: &[FieldName],
    line: u32,
) -> Result<(), ReadFault>
    ensures { NoOther (shared.now ++ own.now) line (view object.now) result }
{
    let Some(members) = object.as_object() else {
        return Ok(());
    };
    if has_other(members, shared, own) {
        return Err(ReadFault::BadField {
            name: FieldName::Other,
            line,
        });
    }
    Ok(())
}

/// Whether there is a key that is the name of none of the fields.
fn has_other(members: &Map<String, Value>, shared: &[FieldName], own: &[FieldName]) -> bool
    ensures { result ≡ list_any (λ key. not (is_named (shared.now ++ own.now) (string_bytes key))) (keys members.now) }
{
    members
        .keys()
        .any(|key| !is_named_in(shared, own, key.as_str()))
}

/// Whether the key is the name of one of the fields.
fn is_named_in(shared: &[FieldName], own: &[FieldName], key: &str) -> bool
    ensures { result ≡ is_named (shared.now ++ own.now) key.now }
{
    is_named(shared, key) || is_named(own, key)
}

/// Whether the key is the name of one of these fields.
fn is_named(names: &[FieldName], key: &str) -> bool
    ensures { result ≡ is_named names.now key.now }
{
    names.iter().any(|name| field_text(*name) == key)
}
