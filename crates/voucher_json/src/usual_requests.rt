//! Receipts and issues in the usual form: their fields, and those of their lines, each once in the order of the
//! documents, and numbers of plain digits. They are read with no JSON value in between.
ghost use Rattle.std.specs.Prelude.{◌≡◌, ◌∷◌, ℕ, Bool, codes, IsTrue, Ok, IfOk, IfSome};
ghost use Rattle.json.specs.Token.{begin_object, key, string};
ghost use Rattle.stock_model.specs.Limits.{is_within_limits};
ghost use Rattle.voucher_json.specs.Requests.{IsReadAs, IsWithinLimits};
ghost use Rattle.voucher_json.specs.UsualTexts.{BeginsWithPost, BeginsWithMoment, BeginsWithPurpose};

use crate::kinds::purpose_named;
use crate::plain_reader::PlainReader;
use crate::usual_lines::read_last_lines;
use std::alloc::Global;
use stock_model::read_faults::FieldName;
use stock_model::requests::Request;
use stock_model::vouchers::{Purpose, What};
use stock_nums::memory::NoMemory;
use stock_nums::moment::Moment;
use stock_nums::moment_text::read_moment;

/// The request that a text in the usual form is. A text in another form gives none.
pub fn read_usual(alloc: Global, bytes: &[u8]) -> Result<Option<Request>, NoMemory>
    ensures read { IfOk result (λ found. IfSome found (λ request. (at_desk : Bool) → IsReadAs at_desk bytes.now (Ok request))) }
    ensures limits { IfOk result (λ found. IfSome found IsWithinLimits) }
{
    let Ok(text) = simdutf8::compat::from_utf8(bytes) else {
        return Ok(None);
    };
    let mut reader = PlainReader::new(text);
    let Some(what) = read_post(alloc, &mut reader)? else {
        return Ok(None);
    };
    if !reader.is_at_end() {
        return Ok(None);
    }
    Ok(Some(Request::Post(what)))
}

/// What the voucher that comes next says.
fn read_post(alloc: Global, reader: &mut PlainReader<'_>) -> Result<Option<What>, NoMemory>
    ensures read { IfOk result (λ found. IfSome found (λ what. BeginsWithPost reader.old what reader.new)) }
    ensures limits { IfOk result (λ found. IfSome found (λ what. IsTrue (is_within_limits what))) }
{
    if !reader.opens_object() || !reader.has_key(FieldName::Do) {
        return Ok(None);
    }
    match reader.next_text() {
        Some("receipt") => read_receipt(alloc, reader),
        Some("issue") => read_issue(alloc, reader),
        _ => Ok(None),
    }
}

/// What a receipt says, after its `do`.
fn read_receipt(alloc: Global, reader: &mut PlainReader<'_>) -> Result<Option<What>, NoMemory>
    ensures read { IfOk result (λ found. IfSome found (λ what. BeginsWithPost (begin_object ∷ key (codes "do") ∷ string (codes "receipt") ∷ reader.old) what reader.new)) }
    ensures limits { IfOk result (λ found. IfSome found (λ what. IsTrue (is_within_limits what))) }
{
    let Some(at) = read_at(reader) else {
        return Ok(None);
    };
    let Some(lines) = read_last_lines(alloc, reader)? else {
        return Ok(None);
    };
    Ok(Some(What::Receipt { at, lines }))
}

/// What an issue says, after its `do`.
fn read_issue(alloc: Global, reader: &mut PlainReader<'_>) -> Result<Option<What>, NoMemory>
    ensures read { IfOk result (λ found. IfSome found (λ what. BeginsWithPost (begin_object ∷ key (codes "do") ∷ string (codes "issue") ∷ reader.old) what reader.new)) }
    ensures limits { IfOk result (λ found. IfSome found (λ what. IsTrue (is_within_limits what))) }
{
    let Some(at) = read_at(reader) else {
        return Ok(None);
    };
    let Some(purpose) = read_purpose(reader) else {
        return Ok(None);
    };
    let Some(lines) = read_last_lines(alloc, reader)? else {
        return Ok(None);
    };
    Ok(Some(What::Issue { at, purpose, lines }))
}

/// The moment that the field `at` spells.
fn read_at(reader: &mut PlainReader<'_>) -> Option<Moment>
    ensures { IfSome result (λ at. BeginsWithMoment reader.old at reader.new) }
{
    if !reader.has_key(FieldName::At) {
        return None;
    }
    let text = reader.next_text()?;
    read_moment(text.as_bytes()).ok()
}

/// The purpose that the field `use` names.
fn read_purpose(reader: &mut PlainReader<'_>) -> Option<Purpose>
    ensures { IfSome result (λ purpose. BeginsWithPurpose reader.old purpose reader.new) }
{
    if !reader.has_key(FieldName::Use) {
        return None;
    }
    purpose_named(reader.next_text()?)
}
