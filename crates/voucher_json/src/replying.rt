//! The texts of the replies.
ghost use Rattle.std.specs.Prelude.{◌≡◌, false, IfOk};
ghost use Rattle.serde_json.specs.Written.{has_float, compact_text};
ghost use Rattle.serde_json.specs.View.{view};
ghost use Rattle.stock_model.specs.Masters.{code_of};
ghost use Rattle.voucher_json.specs.ReplyText.{not_live_data, linked_data, over_return_data, frozen_data, full_data, short_data, refusal_data, pending_data, missing_data, reply_text, IsTold, IsPrinted};

use crate::moment_strings::moment_string;
use crate::plain_texts::{bad_text, line_fault_text, numbered, record_fault_text};
use serde_json::{Value, json};
use std::alloc::{AllocError, Global};
use stock_model::faults::PostFault;
use stock_model::masters::code_of;
use stock_model::replies::Reply;
use stock_nums::code::Code;
use stock_nums::head::Head;
use stock_nums::lines::Lines;
use stock_nums::memory::NoMemory;
use stock_nums::moment::Moment;
use stock_nums::numbers::{ItemNo, Qty, RecordNo, StoreNo};
use stock_nums::place::Place;

/// The text of a reply, with no line feed. A shortage is told by the codes of its item and warehouse, which
/// are found among the heads.
pub fn reply_text(alloc: Global, reply: &Reply, heads: &[Head]) -> Result<Lines<u8>, NoMemory>
    requires { IsPrinted reply.now }
    ensures { IfOk result (λ text. text ≡ reply_text heads.now reply.now) }
{
    Ok(Lines::from_vec(reply_bytes(alloc, reply, heads)?))
}

/// The bytes of a reply. The commonest ones are written with no JSON value in between.
fn reply_bytes(alloc: Global, reply: &Reply, heads: &[Head]) -> Result<Vec<u8>, AllocError>
    requires { IsPrinted reply.now }
    ensures { IfOk result (λ text. text.items ≡ reply_text heads.now reply.now) }
{
    match reply {
        Reply::Accepted(number) => {
            numbered(alloc, r#"{"record":"#, number.0, r#","status":"accepted"}"#)
        }
        Reply::Refused(fault) => refusal_text(alloc, *fault, heads),
        Reply::Pending { covered, wanted } => {
            value_text(alloc, pending_value(alloc, *covered, *wanted)?)
        }
        Reply::NoSuchRecord { accepted, wanted } => {
            value_text(alloc, missing_value(alloc, *accepted, *wanted)?)
        }
        Reply::Worked(covered) => {
            numbered(alloc, r#"{"covered":"#, covered.0, r#","status":"worked"}"#)
        }
        Reply::Settled(covered) => {
            numbered(
                alloc,
                r#"{"covered":"#,
                covered.0,
                r#","status":"settled"}"#,
            )
        }
        Reply::Long => Vec::from_slice(alloc, br#"{"fault":"long","status":"bad"}"#),
        Reply::Bad(fault) => bad_text(alloc, *fault),
        Reply::StoreFailed => Vec::from_slice(alloc, br#"{"fault":"store","status":"failed"}"#),
        Reply::MemoryFailed => Vec::from_slice(alloc, br#"{"fault":"memory","status":"failed"}"#),
        Reply::Http => Vec::from_slice(alloc, br#"{"fault":"http","status":"bad"}"#),
    }
}

/// The text of a JSON value with no float.
fn value_text(alloc: Global, value: Value) -> Result<Vec<u8>, AllocError>
    requires { has_float (view value) ≡ false }
    ensures { IfOk result (λ text. text.items ≡ compact_text (view value)) }
{
    Ok(value.to_string(alloc)?.into_bytes())
}

/// The text of a refusal.
fn refusal_text(alloc: Global, fault: PostFault, heads: &[Head]) -> Result<Vec<u8>, AllocError>
    requires { IsTold fault }
    ensures { IfOk result (λ text. text.items ≡ compact_text (refusal_data heads.now fault)) }
{
    match fault {
        PostFault::CodeTaken => record_fault_text(alloc, "code-taken"),
        PostFault::CodeShape => record_fault_text(alloc, "code-shape"),
        PostFault::AccountRange => record_fault_text(alloc, "account-range"),
        PostFault::UnknownItem { line } => line_fault_text(alloc, "unknown-item", line),
        PostFault::UnknownStore { line } => line_fault_text(alloc, "unknown-store", line),
        PostFault::SameStore { line } => line_fault_text(alloc, "same-store", line),
        PostFault::UnknownTarget { line } => line_fault_text(alloc, "unknown-target", line),
        PostFault::NotLive { target } => value_text(alloc, not_live_value(alloc, target)?),
        PostFault::Linked { by } => value_text(alloc, linked_value(alloc, by)?),
        PostFault::LinkLater { line } => line_fault_text(alloc, "link-later", line),
        PostFault::RepeatedTarget { line } => line_fault_text(alloc, "repeated-target", line),
        PostFault::OverReturn { line, asked, left } => {
            value_text(alloc, over_return_value(alloc, line, asked, left)?)
        }
        PostFault::NoBasis => record_fault_text(alloc, "no-basis"),
        PostFault::Frozen { until } => value_text(alloc, frozen_value(alloc, until)?),
        PostFault::Full { records, entries } => {
            value_text(alloc, full_value(alloc, records, entries)?)
        }
        PostFault::Short {
            place,
            item,
            store,
            lacking,
        } => short_text(alloc, heads, place, item, store, lacking),
        PostFault::KeeperFailed | PostFault::NoMemory => unreachable!(),
    }
}

/// The JSON value of the refusal of a cancel of what is no voucher in force.
fn not_live_value(alloc: Global, target: RecordNo) -> Result<Value, AllocError>
    ensures { IfOk result (λ value. view value ≡ not_live_data target.0) }
{
    json!(in alloc; {"fault": "not-live", "record": target.0, "status": "refused"})
}

/// The JSON value of the refusal of a cancel of a voucher of which another one names a line.
fn linked_value(alloc: Global, by: RecordNo) -> Result<Value, AllocError>
    ensures { IfOk result (λ value. view value ≡ linked_data by.0) }
{
    json!(in alloc; {"by": by.0, "fault": "linked", "status": "refused"})
}

/// The JSON value of the refusal of a return of more than is left.
fn over_return_value(alloc: Global, line: u32, asked: Qty, left: Qty) -> Result<Value, AllocError>
    ensures { IfOk result (λ value. view value ≡ over_return_data line asked.0 left.0) }
{
    json!(in alloc; {"asked": asked.0, "fault": "over-return", "left": left.0, "line": line, "status": "refused"})
}

/// The JSON value of the refusal of a record that changes what is closed.
fn frozen_value(alloc: Global, until: Moment) -> Result<Value, AllocError>
    ensures { IfOk result (λ value. view value ≡ frozen_data until) }
{
    let until = moment_string(alloc, until)?;
    json!(in alloc; {"fault": "frozen", "status": "refused", "until": until})
}

/// The JSON value of the refusal for want of room.
fn full_value(alloc: Global, records: u32, entries: u32) -> Result<Value, AllocError>
    ensures { IfOk result (λ value. view value ≡ full_data records entries) }
{
    json!(in alloc; {"entries": entries, "fault": "full", "records": records, "status": "refused"})
}

/// The text of the refusal for a shortage.
fn short_text(
    alloc: Global,
    heads: &[Head],
    place: Place,
    item: ItemNo,
    store: StoreNo,
    lacking: Qty,
) -> Result<Vec<u8>, AllocError>
    ensures { IfOk result (λ text. text.items
        ≡ compact_text (short_data place (code_of heads.now item.0) (code_of heads.now store.0) lacking.0)) }
{
    let item = code_numbered(alloc, heads, item.0)?;
    let store = code_numbered(alloc, heads, store.0)?;
    value_text(alloc, short_value(alloc, place, &item, &store, lacking)?)
}

/// The code of the item or warehouse with this number.
fn code_numbered(alloc: Global, heads: &[Head], number: u32) -> Result<Code, AllocError>
    ensures { IfOk result (λ code. code ≡ code_of heads.now number) }
{
    match code_of(alloc, heads, number) {
        Ok(code) => Ok(code),
        Err(NoMemory) => Err(AllocError),
    }
}

/// The JSON value of the refusal for a shortage.
fn short_value(
    alloc: Global,
    place: Place,
    item: &Code,
    store: &Code,
    lacking: Qty,
) -> Result<Value, AllocError>
    ensures { IfOk result (λ value. view value ≡ short_data place item.now store.now lacking.0) }
{
    let at = moment_string(alloc, place.moment)?;
    json!(in alloc; {
        "at": at,
        "fault": "short",
        "item": item.text(),
        "lacking": lacking.0,
        "line": place.line,
        "record": place.voucher.0,
        "status": "refused",
        "store": store.text()
    })
}

/// The JSON value of the reply that the wanted record is not covered yet.
fn pending_value(alloc: Global, covered: RecordNo, wanted: RecordNo) -> Result<Value, AllocError>
    ensures { IfOk result (λ value. view value ≡ pending_data covered.0 wanted.0) }
{
    json!(in alloc; {"covered": covered.0, "need": wanted.0, "status": "pending"})
}

/// The JSON value of the reply that there is no such record as the wanted one.
fn missing_value(alloc: Global, accepted: RecordNo, wanted: RecordNo) -> Result<Value, AllocError>
    ensures { IfOk result (λ value. view value ≡ missing_data accepted.0 wanted.0) }
{
    json!(in alloc; {"accepted": accepted.0, "need": wanted.0, "status": "no-such-record"})
}
