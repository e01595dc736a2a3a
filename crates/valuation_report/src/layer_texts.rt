//! The texts of the rows of the layers sheet.
ghost use Rattle.std.specs.Prelude.{◌≡◌, ◌<◌, true, filter, map, OnOk};
ghost use Rattle.std.specs.List.{flat_map, list_all};
ghost use Rattle.stock_nums.specs.Codes.{is_code_byte};
ghost use Rattle.stock_model.specs.Books.{AreHeads};
ghost use Rattle.stock_model.specs.Bounds.{has_value_in_range};
ghost use Rattle.stock_model.specs.Masters.{code_of};
ghost use Rattle.stock_model.specs.Sums.{units_of};
ghost use Rattle.stock_model.specs.declared.queries.Format.TheVariants.{Json, Csv};
ghost use Rattle.stock_nums.specs.declared.cause.Method.TheVariants.{Fifo, Average};
ghost use Rattle.valuation_report.specs.Adding.{Adds};
ghost use Rattle.valuation_report.specs.GroupRows.{remainder_row, left_of, own_method, layers_by, own_layers};
ghost use Rattle.valuation_report.specs.Holdings.{units_out, AreHeld};
ghost use Rattle.valuation_report.specs.Pieces.{layer_piece};

use crate::code_texts::code_text;
use crate::grouping::Group;
use crate::holdings::Holding;
use crate::text_parts::{push_bytes, push_number, push_text, push_word};
use stock_model::queries::Format;
use stock_nums::cause::Method;
use stock_nums::entry::Row;
use stock_nums::head::Head;
use stock_nums::memory::NoMemory;
use stock_nums::numbers::Qty;
use stock_nums::part::part;
use stock_nums::place::Side;

// What is left of what entered by a line of a record, or record 0 and line 0 for all that is held.
#[derive(Clone, Copy)]
struct Remainder {
    voucher: u32,
    line: u32,
    qty: u64,
    value: u64,
}

// Adds the row as an object of JSON.
fn push_json(text: &mut Vec<u8>, item: &str, store: &str, left: Remainder) -> Result<(), NoMemory>
    requires item { list_all is_code_byte item.now ≡ true }
    requires store { list_all is_code_byte store.now ≡ true }
    ensures { OnOk result (Adds text.old.items text.new.items (layer_piece Json (remainder_row item.now store.now left))) }
{
    push_word(text, br#"{"item":""#, item)?;
    push_number(text, br#"","line":"#, left.line)?;
    push_number(text, br#","qty":"#, left.qty)?;
    push_number(text, br#","record":"#, left.voucher)?;
    push_word(text, br#","store":""#, store)?;
    push_number(text, br#"","value":"#, left.value)?;
    push_bytes(text, b"},")
}

// Adds the row as a record of CSV.
fn push_csv(text: &mut Vec<u8>, item: &str, store: &str, left: Remainder) -> Result<(), NoMemory>
    requires item { list_all is_code_byte item.now ≡ true }
    requires store { list_all is_code_byte store.now ≡ true }
    ensures { OnOk result (Adds text.old.items text.new.items (layer_piece Csv (remainder_row item.now store.now left))) }
{
    push_text(text, item)?;
    push_word(text, b",", store)?;
    push_number(text, b",", left.voucher)?;
    push_number(text, b",", left.line)?;
    push_number(text, b",", left.qty)?;
    push_number(text, b",", left.value)?;
    push_bytes(text, br"\n")
}

// Adds the row.
fn push_row(
    text: &mut Vec<u8>,
    format: Format,
    item: &str,
    store: &str,
    left: Remainder,
) -> Result<(), NoMemory>
    requires item { list_all is_code_byte item.now ≡ true }
    requires store { list_all is_code_byte store.now ≡ true }
    ensures { OnOk result (Adds text.old.items text.new.items (layer_piece format (remainder_row item.now store.now left))) }
{
    match format {
        Format::Json => push_json(text, item, store, left),
        Format::Csv => push_csv(text, item, store, left),
    }
}

// What is left of what the movement brought in, of which so many units were taken.
fn left_of(row: &Row, taken: u64) -> Remainder
    requires in_range { has_value_in_range row.now ≡ true }
    requires left { taken < units_of row.now }
    ensures { result ≡ left_of row.now taken }
{
    let whole = row.entry.qty;
    let qty = whole.0 - taken;
    let value = part(row.worth.value, Qty(taken), Qty(qty), whole);
    Remainder {
        voucher: row.entry.place.voucher.0,
        line: row.entry.place.line,
        qty,
        value: value.0.unsigned_abs(),
    }
}

// How many units left.
fn units_out(rows: &[Row]) -> u64
    requires { AreHeld rows.now }
    ensures { result ≡ units_out rows.now }
{
    let mut units = 0;
    for row in rows {
        if row.entry.place.side == Side::Leaves {
            units += row.entry.qty.0;
        }
    }
    units
}

// Adds the layers of an item that is costed first in, first out.
fn push_fifo(
    text: &mut Vec<u8>,
    format: Format,
    item: &str,
    store: &str,
    rows: &[Row],
) -> Result<(), NoMemory>
    requires item { list_all is_code_byte item.now ≡ true }
    requires store { list_all is_code_byte store.now ≡ true }
    requires held { AreHeld rows.now }
    ensures { OnOk result (Adds text.old.items text.new.items (flat_map (layer_piece format) (layers_by Fifo item.now store.now rows.now))) }
{
    let mut taken = units_out(rows);
    for row in rows {
        if row.entry.place.side == Side::Enters {
            if row.entry.qty.0 <= taken {
                taken -= row.entry.qty.0;
            } else {
                push_row(text, format, item, store, left_of(row, taken))?;
                taken = 0;
            }
        }
    }
    Ok(())
}

// Adds the one row of an item that is costed by the moving average, where it has units.
fn push_average(
    text: &mut Vec<u8>,
    format: Format,
    item: &str,
    store: &str,
    rows: &[Row],
) -> Result<(), NoMemory>
    requires item { list_all is_code_byte item.now ≡ true }
    requires store { list_all is_code_byte store.now ≡ true }
    requires held { AreHeld rows.now }
    ensures { OnOk result (Adds text.old.items text.new.items (flat_map (layer_piece format) (layers_by Average item.now store.now rows.now))) }
{
    let holding = Holding::after(rows);
    let qty = holding.units();
    if qty == 0 {
        return Ok(());
    }
    let whole = Remainder {
        voucher: 0,
        line: 0,
        qty,
        value: holding.value,
    };
    push_row(text, format, item, store, whole)
}

// The cost formula of the movements' item, as the first of them says.
fn method_of(rows: &[Row]) -> Method
    ensures { result ≡ own_method rows.now }
{
    match rows.first() {
        Some(row) => row.entry.method,
        None => Method::Average,
    }
}

/// Adds what is left of what entered of one item in one warehouse.
pub(crate) fn push_layers(
    text: &mut Vec<u8>,
    format: Format,
    heads: &[Head],
    group: &Group,
) -> Result<(), NoMemory>
    requires heads { AreHeads heads.now }
    requires held { AreHeld group.now.rows }
    ensures { OnOk result (Adds text.old.items text.new.items (flat_map (layer_piece format)
        (own_layers (code_of heads.now group.now.key.item.0) (code_of heads.now group.now.key.store.0) group.now.rows))) }
{
    let item = code_text(heads, group.key.item.0);
    let store = code_text(heads, group.key.store.0);
    let rows = group.rows.as_slice();
    match method_of(rows) {
        Method::Fifo => push_fifo(text, format, item, store, rows),
        Method::Average => push_average(text, format, item, store, rows),
    }
}
