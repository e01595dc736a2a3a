//! The texts of the rows of the ledger sheet.
ghost use Rattle.std.specs.Prelude.{◌≡◌, ◌+◌, ◌/◌, ◌%◌, ◌<◌, ◌++◌, true, codes, IfOk, OnOk};
ghost use Rattle.std.specs.List.{flat_map, list_all};
ghost use Rattle.stock_nums.specs.Codes.{is_code_byte};
ghost use Rattle.stock_nums.specs.MomentText.{moment_text};
ghost use Rattle.stock_model.specs.Books.{AreHeads};
ghost use Rattle.stock_model.specs.Masters.{code_of};
ghost use Rattle.stock_model.specs.declared.queries.Format.TheVariants.{Json, Csv};
ghost use Rattle.valuation_report.specs.Adding.{Adds};
ghost use Rattle.valuation_report.specs.GroupRows.{movement_of, own_movements};
ghost use Rattle.valuation_report.specs.Holdings.{AreHeld};
ghost use Rattle.valuation_report.specs.LedgerParts.{item_part, store_part, row_text};
ghost use Rattle.valuation_report.specs.Pieces.{ledger_piece};
ghost use Rattle.valuation_report.specs.SheetRows.{side_word};

use crate::code_texts::code_text;
use crate::grouping::Group;
use crate::holdings::Holding;
use crate::text_parts::{push_bytes, push_number, push_text, push_word};
use std::alloc::Global;
use stock_model::queries::Format;
use stock_nums::entry::Row;
use stock_nums::head::Head;
use stock_nums::memory::NoMemory;
use stock_nums::moment::Moment;
use stock_nums::place::Side;

// A movement, and what is held after it.
#[derive(Clone, Copy)]
struct Movement {
    at: Moment,
    voucher: u32,
    line: u32,
    side: Side,
    qty: u64,
    value: u64,
    stock: u64,
    worth: u64,
}

fn tens(number: u32) -> u8
    requires { number < 100 }
    ensures { result ≡ 48 + number / 10 }
{
    b'0' + (number / 10) as u8
}

fn ones(number: u32) -> u8
    ensures { result ≡ 48 + number % 10 }
{
    b'0' + (number % 10) as u8
}

// The text `YYYY-MM-DDTHH:MM:SS` of a moment. It takes no memory.
fn moment_bytes(moment: Moment) -> [u8; 19]
    ensures { result ≡ moment_text moment }
{
    let century = moment.date / 1_000_000;
    let year = moment.date / 10_000 % 100;
    let month = moment.date / 100 % 100;
    let day = moment.date % 100;
    let hour = moment.second / 3600;
    let minute = moment.second / 60 % 60;
    let second = moment.second % 60;
    [
        tens(century),
        ones(century),
        tens(year),
        ones(year),
        b'-',
        tens(month),
        ones(month),
        b'-',
        tens(day),
        ones(day),
        b'T',
        tens(hour),
        ones(hour),
        b':',
        tens(minute),
        ones(minute),
        b':',
        tens(second),
        ones(second),
    ]
}

// What stands from the record to the stock in a row of JSON: the side, and the names about it.
fn json_side(side: Side) -> &'static [u8]
    ensures { result.now ≡ codes ",\"side\":\"" ++ (side_word side ++ codes "\",\"stock\":") }
{
    match side {
        Side::Leaves => br#","side":"out","stock":"#,
        Side::Enters => br#","side":"in","stock":"#,
    }
}

// What stands from the line to the quantity in a record of CSV.
fn csv_side(side: Side) -> &'static [u8]
    ensures { result.now ≡ codes "," ++ (side_word side ++ codes ",") }
{
    match side {
        Side::Leaves => b",out,",
        Side::Enters => b",in,",
    }
}

// Adds the bytes that stand before a moment, and the moment.
fn push_moment(text: &mut Vec<u8>, before: &[u8], moment: Moment) -> Result<(), NoMemory>
    ensures { OnOk result (Adds text.old.items text.new.items (before.now ++ moment_text moment)) }
{
    push_bytes(text, before)?;
    push_bytes(text, &moment_bytes(moment))
}

// The movement, and what is held after it.
fn movement_of(row: &Row, holding: Holding) -> Movement
    ensures { result ≡ movement_of row.now holding }
{
    let place = row.entry.place;
    Movement {
        at: place.moment,
        voucher: place.voucher.0,
        line: place.line,
        side: place.side,
        qty: row.entry.qty.0,
        value: row.worth.value.0.unsigned_abs(),
        stock: holding.units(),
        worth: holding.value,
    }
}

// The item's code, with what stands about it in a row.
fn item_part(alloc: Global, format: Format, item: &str) -> Result<Vec<u8>, NoMemory>
    ensures { IfOk result (λ part. part.items ≡ item_part format item.now) }
{
    let mut part = Vec::new(alloc);
    match format {
        Format::Json => {
            push_word(&mut part, br#"","item":""#, item)?;
            push_bytes(&mut part, br#"","line":"#)?;
        }
        Format::Csv => {
            push_text(&mut part, item)?;
            push_bytes(&mut part, b",")?;
        }
    }
    Ok(part)
}

// The warehouse's code, with what stands about it in a row.
fn store_part(alloc: Global, format: Format, store: &str) -> Result<Vec<u8>, NoMemory>
    ensures { IfOk result (λ part. part.items ≡ store_part format store.now) }
{
    let mut part = Vec::new(alloc);
    match format {
        Format::Json => {
            push_word(&mut part, br#","store":""#, store)?;
            push_bytes(&mut part, br#"","value":"#)?;
        }
        Format::Csv => {
            push_text(&mut part, store)?;
            push_bytes(&mut part, b",")?;
        }
    }
    Ok(part)
}

// Adds the movement as an object of JSON, with these parts for its item and its warehouse.
fn push_json(
    text: &mut Vec<u8>,
    item: &[u8],
    store: &[u8],
    movement: Movement,
) -> Result<(), NoMemory>
    ensures { OnOk result (Adds text.old.items text.new.items (row_text Json item.now store.now movement)) }
{
    push_moment(text, br#"{"at":""#, movement.at)?;
    push_number(text, item, movement.line)?;
    push_number(text, br#","qty":"#, movement.qty)?;
    push_number(text, br#","record":"#, movement.voucher)?;
    push_number(text, json_side(movement.side), movement.stock)?;
    push_number(text, store, movement.value)?;
    push_number(text, br#","worth":"#, movement.worth)?;
    push_bytes(text, b"},")
}

// Adds the movement as a record of CSV.
fn push_csv(
    text: &mut Vec<u8>,
    item: &[u8],
    store: &[u8],
    movement: Movement,
) -> Result<(), NoMemory>
    ensures { OnOk result (Adds text.old.items text.new.items (row_text Csv item.now store.now movement)) }
{
    push_bytes(text, item)?;
    push_moment(text, store, movement.at)?;
    push_number(text, b",", movement.voucher)?;
    push_number(text, b",", movement.line)?;
    push_number(text, csv_side(movement.side), movement.qty)?;
    push_number(text, b",", movement.value)?;
    push_number(text, b",", movement.stock)?;
    push_number(text, b",", movement.worth)?;
    push_bytes(text, br"\n")
}

// Adds the movement.
fn push_row(
    text: &mut Vec<u8>,
    format: Format,
    item: &[u8],
    store: &[u8],
    movement: Movement,
) -> Result<(), NoMemory>
    ensures { OnOk result (Adds text.old.items text.new.items (row_text format item.now store.now movement)) }
{
    match format {
        Format::Json => push_json(text, item, store, movement),
        Format::Csv => push_csv(text, item, store, movement),
    }
}

// Adds the movements, each with what is held after it.
fn push_rows(
    alloc: Global,
    text: &mut Vec<u8>,
    format: Format,
    item: &str,
    store: &str,
    rows: &[Row],
) -> Result<(), NoMemory>
    requires item { list_all is_code_byte item.now ≡ true }
    requires store { list_all is_code_byte store.now ≡ true }
    requires held { AreHeld rows.now }
    ensures { OnOk result (Adds text.old.items text.new.items (flat_map (ledger_piece format) (own_movements item.now store.now rows.now))) }
{
    let item_text = item_part(alloc, format, item)?;
    let store_text = store_part(alloc, format, store)?;
    let own_item = item_text.as_slice();
    let own_store = store_text.as_slice();
    let mut holding = Holding::none();
    for row in rows {
        holding.add(row);
        push_row(text, format, own_item, own_store, movement_of(row, holding))?;
    }
    Ok(())
}

/// Adds the movements of one item in one warehouse, each with what is held after it.
pub(crate) fn push_ledger(
    alloc: Global,
    text: &mut Vec<u8>,
    format: Format,
    heads: &[Head],
    group: &Group,
) -> Result<(), NoMemory>
    requires heads { AreHeads heads.now }
    requires held { AreHeld group.now.rows }
    ensures { OnOk result (Adds text.old.items text.new.items (flat_map (ledger_piece format)
        (own_movements (code_of heads.now group.now.key.item.0) (code_of heads.now group.now.key.store.0) group.now.rows))) }
{
    let item = code_text(heads, group.key.item.0);
    let store = code_text(heads, group.key.store.0);
    push_rows(alloc, text, format, item, store, group.rows.as_slice())
}
