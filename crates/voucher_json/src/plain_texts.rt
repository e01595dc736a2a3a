//! The texts of the commonest replies, written with no JSON value in between.
ghost use Rattle.std.specs.Prelude.{◌≡◌, ◌++◌, codes, decimal, IfOk};
ghost use Rattle.serde_json.specs.Written.{compact_text};
ghost use Rattle.voucher_json.specs.FieldNames.{field_text};
ghost use Rattle.voucher_json.specs.ReplyText.{bad_data, IsReadFaultTold};

use crate::field_names::field_text;
use itoa::Buffer;
use std::alloc::{AllocError, Global};
use stock_model::read_faults::{FieldName, ReadFault};

/// Room for each of these texts.
const ROOM: usize = 80;

/// The text with a number between what stands before and after it.
pub fn numbered(
    alloc: Global,
    before: &str,
    number: u32,
    after: &str,
) -> Result<Vec<u8>, AllocError>
    ensures { IfOk result (λ text. text.items ≡ before.now ++ (decimal number ++ after.now)) }
{
    let mut digits = Buffer::new();
    let mut text = Vec::with_capacity(alloc, ROOM)?;
    text.extend_from_slice(before.as_bytes())?;
    text.extend_from_slice(digits.format(number).as_bytes())?;
    text.extend_from_slice(after.as_bytes())?;
    Ok(text)
}

/// The text of the refusal for this fault of the whole record.
pub fn record_fault_text(alloc: Global, fault: &str) -> Result<Vec<u8>, AllocError>
    ensures { IfOk result (λ text. text.items
        ≡ codes "{\"fault\":\"" ++ (fault.now ++ codes "\",\"status\":\"refused\"}")) }
{
    let mut text = Vec::with_capacity(alloc, ROOM)?;
    text.extend_from_slice(br#"{"fault":""#)?;
    text.extend_from_slice(fault.as_bytes())?;
    text.extend_from_slice(br#"","status":"refused"}"#)?;
    Ok(text)
}

/// The text of the refusal for this fault of a line, from 1.
pub fn line_fault_text(alloc: Global, fault: &str, line: u32) -> Result<Vec<u8>, AllocError>
    ensures { IfOk result (λ text. text.items
        ≡ codes "{\"fault\":\"" ++ (fault.now ++ (codes "\",\"line\":" ++ (decimal line ++ codes ",\"status\":\"refused\"}")))) }
{
    let mut digits = Buffer::new();
    let mut text = Vec::with_capacity(alloc, ROOM)?;
    text.extend_from_slice(br#"{"fault":""#)?;
    text.extend_from_slice(fault.as_bytes())?;
    text.extend_from_slice(br#"","line":"#)?;
    text.extend_from_slice(digits.format(line).as_bytes())?;
    text.extend_from_slice(br#","status":"refused"}"#)?;
    Ok(text)
}

/// The text of the reply to a text that is no request.
pub fn bad_text(alloc: Global, fault: ReadFault) -> Result<Vec<u8>, AllocError>
    requires { IsReadFaultTold fault }
    ensures { IfOk result (λ text. text.items ≡ compact_text (bad_data fault)) }
{
    match fault {
        ReadFault::BadJson => Vec::from_slice(alloc, br#"{"fault":"bad-json","status":"bad"}"#),
        ReadFault::BadField { name, line } => {
            field_fault_text(alloc, r#"{"fault":"bad-field","field":""#, name, line)
        }
        ReadFault::Limit { name, line } => {
            field_fault_text(alloc, r#"{"fault":"limit","field":""#, name, line)
        }
        ReadFault::NoMemory => unreachable!(),
    }
}

/// The text of a fault of a request's field, which begins so.
fn field_fault_text(
    alloc: Global,
    head: &str,
    name: FieldName,
    line: u32,
) -> Result<Vec<u8>, AllocError>
    ensures { IfOk result (λ text. text.items
        ≡ head.now ++ (field_text name ++ (codes "\",\"line\":" ++ (decimal line ++ codes ",\"status\":\"bad\"}")))) }
{
    let mut digits = Buffer::new();
    let mut text = Vec::with_capacity(alloc, ROOM)?;
    text.extend_from_slice(head.as_bytes())?;
    text.extend_from_slice(field_text(name).as_bytes())?;
    text.extend_from_slice(br#"","line":"#)?;
    text.extend_from_slice(digits.format(line).as_bytes())?;
    text.extend_from_slice(br#","status":"bad"}"#)?;
    Ok(text)
}
