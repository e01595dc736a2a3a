//! A text as the request that it is.
ghost use Rattle.std.specs.Prelude.{◌≡◌, ◌≤◌, ◌⊎◌, ℕ, List, Bool, Result, Ok, Err, IfOk, IfErr};
ghost use Rattle.serde_json.specs.View.{view};
ghost use Rattle.stock_model.specs.declared.read_faults.ReadFault.{ReadFault};
ghost use Rattle.stock_model.specs.declared.requests.Request.{Request};
ghost use Rattle.voucher_json.specs.Walks.{OrNoMemory};
ghost use Rattle.voucher_json.specs.Requests.{IsOfKind, IsRequest, IsReadAs, IsWithinLimits, IsWork};

use crate::fields::{kind_field, number_field};
use crate::forms::{check_object, no_other};
use crate::json_values::json_value;
use crate::kinds::Kind;
use crate::report_reading::read_report;
use crate::usual_requests::read_usual;
use crate::whats::read_what;
use serde_json::Value;
use std::alloc::Global;
use stock_model::read_faults::{FieldName, ReadFault};
use stock_model::requests::Request;
use stock_nums::limits::MAX_TURNS;
use stock_nums::memory::NoMemory;

/// The request that a text is, or the first fault of the walk over its fields. A desk may neither work nor
/// settle.
pub fn read_request(alloc: Global, bytes: &[u8], at_desk: bool) -> Result<Request, ReadFault>
    ensures read { IfOk result (λ request. IsReadAs at_desk bytes.now (Ok request)) }
    ensures fault { IfErr result (λ f. (f ≡ ReadFault.NoMemory) ⊎ IsReadAs at_desk bytes.now (Err f)) }
    ensures limits { IfOk result IsWithinLimits }
{
    match read_usual(alloc, bytes) {
        Ok(Some(request)) => Ok(request),
        Ok(None) => walk_request(alloc, bytes, at_desk),
        Err(NoMemory) => Err(ReadFault::NoMemory),
    }
}

/// A text is read in one way at most, and none is read as want of memory.
pub fn requests_have_one_reading()
    ensures one { (at_desk : Bool) (text : List ℕ) (a b : Result Request ReadFault) → IsReadAs at_desk text a → IsReadAs at_desk text b → a ≡ b }
    ensures memory { (at_desk : Bool) (text : List ℕ) → IsReadAs at_desk text (Err ReadFault.NoMemory) → ⊥ }
{}

/// The same, by way of a JSON value.
fn walk_request(alloc: Global, bytes: &[u8], at_desk: bool) -> Result<Request, ReadFault>
    ensures read { IfOk result (λ request. IsReadAs at_desk bytes.now (Ok request)) }
    ensures fault { IfErr result (λ f. (f ≡ ReadFault.NoMemory) ⊎ IsReadAs at_desk bytes.now (Err f)) }
    ensures limits { IfOk result IsWithinLimits }
{
    let value = json_value(alloc, bytes)?;
    request_of(alloc, &value, at_desk)
}

/// The request that a JSON value is.
fn request_of(alloc: Global, value: &Value, at_desk: bool) -> Result<Request, ReadFault>
    ensures outcome { OrNoMemory (IsRequest at_desk (view value.now)) result }
    ensures limits { IfOk result IsWithinLimits }
{
    check_object(value, FieldName::Request, 0)?;
    let kind = kind_field(value, at_desk)?;
    read_kind(alloc, value, kind)
}

/// The request of this kind that an object is.
fn read_kind(alloc: Global, object: &Value, kind: Kind) -> Result<Request, ReadFault>
    ensures outcome { OrNoMemory (IsOfKind kind (view object.now)) result }
    ensures limits { IfOk result IsWithinLimits }
{
    match kind {
        Kind::Post(kind) => Ok(Request::Post(read_what(alloc, object, &[FieldName::Do], kind)?)),
        Kind::Work => Ok(Request::Work(read_work(object)?)),
        Kind::Settle => {
            no_other(object, &[FieldName::Do], &[], 0)?;
            Ok(Request::Settle)
        }
        Kind::Report => Ok(Request::Report(read_report(alloc, object)?)),
    }
}

/// The most turns that an object asks of a worker.
fn read_work(object: &Value) -> Result<u32, ReadFault>
    ensures outcome { IsWork (view object.now) result }
    ensures range { IfOk result (λ turns. (1 ≤ turns) × (turns ≤ MAX_TURNS)) }
{
    let turns = number_field(object, FieldName::Turns, 0, 1, MAX_TURNS)?;
    no_other(object, &[FieldName::Do], &[FieldName::Turns], 0)?;
    Ok(turns as u32)
}
