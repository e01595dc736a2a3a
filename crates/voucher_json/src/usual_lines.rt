//! The lines of a voucher in the usual form: their fields in the order of the documents.
ghost use Rattle.std.specs.Prelude.{◌≡◌, ◌≤◌, ℕ, IfOk, IfSome, length, map};
ghost use Rattle.serde_json.specs.View.{items_of};
ghost use Rattle.voucher_json.specs.Records.{receipt_line, issue_line};
ghost use Rattle.voucher_json.specs.Tables.{LineTable, line_data};
ghost use Rattle.voucher_json.specs.UsualTexts.{BeginsWithGoods, BeginsWithElement, BeginsWithElements, EndsWithLines};

use crate::line_room::with_room;
use crate::plain_reader::PlainReader;
use std::alloc::Global;
use stock_model::read_faults::FieldName;
use stock_model::vouchers::{IssueLine, ReceiptLine};
use stock_nums::code::Code;
use stock_nums::limits::{MAX_AMOUNT, MAX_LINES, MAX_QUANTITY};
use stock_nums::lines::Lines;
use stock_nums::memory::NoMemory;
use stock_nums::numbers::{Minor, Qty};

/// A line of a voucher, as it is usually written.
pub trait UsualLine: Drop {
    ghost table: { LineTable Self };

    /// The line that comes next, if it has the usual form and its numbers are in range.
    fn read_usual(alloc: Global, reader: &mut PlainReader<'_>) -> Result<Option<Self>, NoMemory>
        ensures { IfOk result (λ found. IfSome found (λ line. BeginsWithElement reader.old (line_data table line) reader.new)) };
}

impl UsualLine for ReceiptLine {
    ghost table = { receipt_line };

    fn read_usual(
        alloc: Global,
        reader: &mut PlainReader<'_>,
    ) -> Result<Option<ReceiptLine>, NoMemory> {
        let Some((item, store, qty)) = read_goods(reader) else {
            return Ok(None);
        };
        if !reader.has_key(FieldName::Amount) {
            return Ok(None);
        }
        let Some(amount) = reader.next_number() else {
            return Ok(None);
        };
        if amount > MAX_AMOUNT || !reader.closes_object() {
            return Ok(None);
        }
        Ok(Some(ReceiptLine {
            item: Code::of(alloc, item)?,
            store: Code::of(alloc, store)?,
            qty: Qty(qty),
            amount: Minor(amount as i64),
        }))
    }
}

impl UsualLine for IssueLine {
    ghost table = { issue_line };

    fn read_usual(
        alloc: Global,
        reader: &mut PlainReader<'_>,
    ) -> Result<Option<IssueLine>, NoMemory> {
        let Some((item, store, qty)) = read_goods(reader) else {
            return Ok(None);
        };
        if !reader.closes_object() {
            return Ok(None);
        }
        Ok(Some(IssueLine {
            item: Code::of(alloc, item)?,
            store: Code::of(alloc, store)?,
            qty: Qty(qty),
        }))
    }
}

/// The item, the warehouse and the quantity with which a line begins, if it does.
#[inline(always)]
fn read_goods<'a>(reader: &mut PlainReader<'a>) -> Option<(&'a str, &'a str, u64)>
    ensures { IfSome result (λ goods. BeginsWithGoods reader.old goods.0.now goods.1.now goods.2 reader.new) }
{
    if !reader.opens_object() || !reader.has_key(FieldName::Item) {
        return None;
    }
    let item = reader.next_text()?;
    if !reader.has_key(FieldName::Store) {
        return None;
    }
    let store = reader.next_text()?;
    if !reader.has_key(FieldName::Qty) {
        return None;
    }
    let qty = reader.next_number()?;
    if qty < 1 || qty > MAX_QUANTITY {
        return None;
    }
    Some((item, store, qty))
}

/// The lines with which a voucher ends, 1 to 100, and its closing brace.
pub fn read_last_lines<L: UsualLine>(
    alloc: Global,
    reader: &mut PlainReader<'_>,
) -> Result<Option<Lines<L>>, NoMemory>
    ensures read { IfOk result (λ found. IfSome found (λ lines. EndsWithLines reader.old (items_of (map (line_data L.table) lines)) reader.new)) }
    ensures least { IfOk result (λ found. IfSome found (λ lines. 1 ≤ length lines)) }
    ensures most { IfOk result (λ found. IfSome found (λ lines. length lines ≤ MAX_LINES)) }
{
    if !reader.has_key(FieldName::Lines) || !reader.opens_list() {
        return Ok(None);
    }
    let Some(lines) = read_usual_lines(alloc, reader)? else {
        return Ok(None);
    };
    if lines.is_empty() || !reader.closes_object() {
        return Ok(None);
    }
    Ok(Some(lines))
}

/// The lines up to the bracket that closes the list, if they have the usual form and are 100 at most.
fn read_usual_lines<L: UsualLine>(
    alloc: Global,
    reader: &mut PlainReader<'_>,
) -> Result<Option<Lines<L>>, NoMemory>
    ensures read { IfOk result (λ found. IfSome found (λ lines. BeginsWithElements reader.old (items_of (map (line_data L.table) lines)) reader.new)) }
    ensures count { IfOk result (λ found. IfSome found (λ lines. length lines ≤ MAX_LINES)) }
{
    let mut lines = with_room(alloc, 1)?;
    while !reader.closes_list() {
        if lines.len() == MAX_LINES {
            return Ok(None);
        }
        let Some(line) = L::read_usual(alloc, reader)? else {
            return Ok(None);
        };
        lines.push(line)?;
    }
    Ok(Some(lines))
}
