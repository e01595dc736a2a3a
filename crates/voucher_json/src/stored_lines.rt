//! The lines of receipts and issues as they are stored: no space, the keys in byte order, nothing escaped.
ghost use Rattle.std.specs.Prelude.{◌≡◌, ◌≤◌, ◌++◌, map, length, false, IfOk, IfSome};
ghost use Rattle.serde_json.specs.View.{items_of};
ghost use Rattle.serde_json.specs.Written.{compact_text, items_text};
ghost use Rattle.stock_nums.specs.Quantities.{IsLineQuantity};
ghost use Rattle.voucher_json.specs.Records.{receipt_line, issue_line};
ghost use Rattle.voucher_json.specs.Tables.{LineTable, line_data};
ghost use Rattle.voucher_json.specs.UsualRecords.{goods_text};

use crate::line_room::with_room;
use crate::text_fronts::{after_byte, number_after, text_after};
use std::alloc::Global;
use stock_model::vouchers::{IssueLine, ReceiptLine};
use stock_nums::code::Code;
use stock_nums::limits::{MAX_AMOUNT, MAX_LINES, MAX_QUANTITY};
use stock_nums::lines::Lines;
use stock_nums::memory::NoMemory;
use stock_nums::numbers::{Minor, Qty};

/// A line of a voucher, as it is stored.
pub trait StoredLine: Drop {
    ghost table: { LineTable Self };

    /// The line whose text the text begins with, and what comes after it.
    fn split(alloc: Global, text: &str) -> Result<Option<(Self, &str)>, NoMemory>
        ensures { IfOk result (λ found. IfSome found (λ parts. text.now ≡ compact_text (line_data table parts.0) ++ parts.1.now)) };
}

impl StoredLine for ReceiptLine {
    ghost table = { receipt_line };

    fn split(alloc: Global, text: &str) -> Result<Option<(ReceiptLine, &str)>, NoMemory> {
        let Some((amount, rest)) = number_after(text, r#"{"amount":"#) else {
            return Ok(None);
        };
        let Some(rest) = after_byte(rest, b',') else {
            return Ok(None);
        };
        let Some(goods) = split_goods(rest) else {
            return Ok(None);
        };
        if amount > MAX_AMOUNT {
            return Ok(None);
        }
        let line = ReceiptLine {
            item: Code::of(alloc, goods.item)?,
            store: Code::of(alloc, goods.store)?,
            qty: Qty(goods.qty),
            amount: Minor(amount as i64),
        };
        Ok(Some((line, goods.rest)))
    }
}

impl StoredLine for IssueLine {
    ghost table = { issue_line };

    fn split(alloc: Global, text: &str) -> Result<Option<(IssueLine, &str)>, NoMemory> {
        let Some(rest) = after_byte(text, b'{') else {
            return Ok(None);
        };
        let Some(goods) = split_goods(rest) else {
            return Ok(None);
        };
        let line = IssueLine {
            item: Code::of(alloc, goods.item)?,
            store: Code::of(alloc, goods.store)?,
            qty: Qty(goods.qty),
        };
        Ok(Some((line, goods.rest)))
    }
}

/// What a line says of its goods, and what comes after the line.
#[derive(Clone, Copy, Drop)]
struct Goods<'a> {
    item: &'a str,
    qty: u64,
    store: &'a str,
    rest: &'a str,
}

/// The goods of a line, from the key `item` on, with a quantity in range.
#[inline(always)]
fn split_goods(text: &str) -> Option<Goods<'_>>
    ensures text { IfSome result (λ goods. text.now ≡ goods_text goods.item.now goods.qty goods.store.now goods.rest.now) }
    ensures quantity { IfSome result (λ goods. IsLineQuantity goods.qty) }
{
    let (item, rest) = text_after(text, r#""item":"#)?;
    let (qty, rest) = number_after(rest, r#","qty":"#)?;
    if qty < 1 || qty > MAX_QUANTITY {
        return None;
    }
    let (store, rest) = text_after(rest, r#","store":"#)?;
    let rest = after_byte(rest, b'}')?;
    Some(Goods {
        item,
        qty,
        store,
        rest,
    })
}

/// The lines up to the bracket that closes the list, 1 to 100, and what comes after it.
pub fn split_lines<L: StoredLine>(
    alloc: Global,
    text: &str,
) -> Result<Option<(Lines<L>, &str)>, NoMemory>
    ensures text { IfOk result (λ found. IfSome found (λ parts. text.now ≡ items_text false (items_of (map (line_data L.table) parts.0)) ++ parts.1.now)) }
    ensures least { IfOk result (λ found. IfSome found (λ parts. 1 ≤ length parts.0)) }
    ensures most { IfOk result (λ found. IfSome found (λ parts. length parts.0 ≤ MAX_LINES)) }
{
    let mut lines = with_room(alloc, 1)?;
    let mut rest = text;
    while lines.len() < MAX_LINES {
        let Some((line, after)) = L::split(alloc, rest)? else {
            return Ok(None);
        };
        lines.push(line)?;
        if let Some(end) = after_byte(after, b']') {
            return Ok(Some((lines, end)));
        }
        let Some(next) = after_byte(after, b',') else {
            return Ok(None);
        };
        rest = next;
    }
    Ok(None)
}
