//! The stored texts of receipts and issues whose codes need no escape. They are read as they stand, with no JSON
//! value in between, so that what is read needs no second text to compare with.
ghost use Rattle.std.specs.Prelude.{◌≡◌, ◌≤◌, ◌++◌, codes, decimal, length, IsTrue, IfOk, IfSome, IsUtf8};
ghost use Rattle.json.specs.Print.{quoted};
ghost use Rattle.stock_nums.specs.declared.limits.TheConstants.{MAX_DESK};
ghost use Rattle.stock_model.specs.Limits.{is_within_limits};
ghost use Rattle.voucher_json.specs.RecordTexts.{purpose_word, record_text};
ghost use Rattle.voucher_json.specs.UsualRecords.{front_text, EndsRecord};

use crate::stored_lines::split_lines;
use crate::text_fronts::{number_after, text_after};
use std::alloc::Global;
use stock_model::records::Record;
use stock_model::vouchers::{Purpose, What};
use stock_nums::limits::MAX_DESK;
use stock_nums::memory::NoMemory;
use stock_nums::moment::Moment;
use stock_nums::moment_text::read_moment;
use stock_nums::numbers::DeskNo;

/// What a stored text begins with, and what comes after the key `do`.
#[derive(Clone, Copy, Drop)]
struct Front<'a> {
    at: Moment,
    desk: DeskNo,
    rest: &'a str,
}

/// The record whose stored text this is, where it is a receipt or an issue whose codes need no escape. Other texts
/// give none, though they may be stored texts.
pub fn usual_record(alloc: Global, bytes: &[u8]) -> Result<Option<Record>, NoMemory>
    ensures text { IfOk result (λ found. IfSome found (λ item. bytes.now ≡ record_text item)) }
    ensures utf8 { IfOk result (λ found. IfSome found (λ item. IsUtf8 (record_text item))) }
{
    let Ok(text) = simdutf8::compat::from_utf8(bytes) else {
        return Ok(None);
    };
    let Some(front) = split_front(text) else {
        return Ok(None);
    };
    let Some(what) = last_what(alloc, front.at, front.rest)? else {
        return Ok(None);
    };
    Ok(Some(Record {
        desk: front.desk,
        what,
    }))
}

/// The moment and the desk with which the text begins.
fn split_front(text: &str) -> Option<Front<'_>>
    ensures text { IfSome result (λ front. text.now ≡ front_text front.at front.desk.0 front.rest.now) }
    ensures desk { IfSome result (λ front. front.desk.0 ≤ MAX_DESK) }
{
    let (spelled, rest) = text_after(text, r#"{"at":"#)?;
    let Ok(at) = read_moment(spelled.as_bytes()) else {
        return None;
    };
    let (desk, rest) = number_after(rest, r#","desk":"#)?;
    if desk > MAX_DESK {
        return None;
    }
    let rest = rest.strip_prefix(r#","do":"#)?;
    Some(Front {
        at,
        desk: DeskNo(desk as u32),
        rest,
    })
}

/// What the text says from the word of `do` on, if it is a receipt or an issue of this moment.
fn last_what(alloc: Global, at: Moment, text: &str) -> Result<Option<What>, NoMemory>
    ensures text { IfOk result (λ found. IfSome found (EndsRecord at text.now)) }
    ensures limits { IfOk result (λ found. IfSome found (λ what. IsTrue (is_within_limits what))) }
{
    if let Some(rest) = text.strip_prefix(r#""receipt","lines":["#) {
        return last_receipt(alloc, at, rest);
    }
    if let Some(rest) = text.strip_prefix(r#""issue","lines":["#) {
        return last_issue(alloc, at, rest);
    }
    Ok(None)
}

/// What a receipt says, from its first line on.
fn last_receipt(alloc: Global, at: Moment, text: &str) -> Result<Option<What>, NoMemory>
    ensures text { IfOk result (λ found. IfSome found (EndsRecord at (codes "\"receipt\",\"lines\":[" ++ text.now))) }
    ensures limits { IfOk result (λ found. IfSome found (λ what. IsTrue (is_within_limits what))) }
{
    let Some((lines, rest)) = split_lines(alloc, text)? else {
        return Ok(None);
    };
    if rest != "}" {
        return Ok(None);
    }
    Ok(Some(What::Receipt { at, lines }))
}

/// What an issue says, from its first line on.
fn last_issue(alloc: Global, at: Moment, text: &str) -> Result<Option<What>, NoMemory>
    ensures text { IfOk result (λ found. IfSome found (EndsRecord at (codes "\"issue\",\"lines\":[" ++ text.now))) }
    ensures limits { IfOk result (λ found. IfSome found (λ what. IsTrue (is_within_limits what))) }
{
    let Some((lines, rest)) = split_lines(alloc, text)? else {
        return Ok(None);
    };
    let Some(purpose) = last_purpose(rest) else {
        return Ok(None);
    };
    Ok(Some(What::Issue { at, purpose, lines }))
}

/// The purpose of an issue, if the text is what comes after its lines.
fn last_purpose(text: &str) -> Option<Purpose>
    ensures { IfSome result (λ purpose. text.now ≡ codes ",\"use\":" ++ (quoted (purpose_word purpose) ++ codes "}")) }
{
    match text {
        r#","use":"sold"}"# => Some(Purpose::Sold),
        r#","use":"used"}"# => Some(Purpose::Used),
        _ => None,
    }
}
