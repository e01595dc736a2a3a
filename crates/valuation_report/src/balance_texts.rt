//! The text of a row of the balance sheet.
ghost use Rattle.std.specs.Prelude.{◌≡◌, true, pos, OnOk};
ghost use Rattle.std.specs.List.{list_all};
ghost use Rattle.stock_nums.specs.Codes.{is_code_byte};
ghost use Rattle.stock_model.specs.Books.{AreHeads};
ghost use Rattle.stock_model.specs.Masters.{code_of};
ghost use Rattle.stock_model.specs.declared.queries.Format.TheVariants.{Json, Csv};
ghost use Rattle.valuation_report.specs.Adding.{Adds};
ghost use Rattle.valuation_report.specs.GroupRows.{held_row};
ghost use Rattle.valuation_report.specs.Pieces.{balance_piece};

use crate::code_texts::code_text;
use crate::holdings::Holding;
use crate::text_parts::{push_bytes, push_number, push_text, push_word};
use stock_model::queries::Format;
use stock_nums::entry::Key;
use stock_nums::head::Head;
use stock_nums::memory::NoMemory;

// Adds the row as an object of JSON.
fn push_json(
    text: &mut Vec<u8>,
    item: &str,
    store: &str,
    qty: u64,
    value: u64,
) -> Result<(), NoMemory>
    requires item { list_all is_code_byte item.now ≡ true }
    requires store { list_all is_code_byte store.now ≡ true }
    ensures { OnOk result (Adds text.old.items text.new.items (balance_piece Json
        (record { item = item.now; store = store.now; qty = record { 0 = qty }; value = record { 0 = pos value } }))) }
{
    push_word(text, br#"{"item":""#, item)?;
    push_number(text, br#"","qty":"#, qty)?;
    push_word(text, br#","store":""#, store)?;
    push_number(text, br#"","value":"#, value)?;
    push_bytes(text, b"},")
}

// Adds the row as a record of CSV.
fn push_csv(
    text: &mut Vec<u8>,
    item: &str,
    store: &str,
    qty: u64,
    value: u64,
) -> Result<(), NoMemory>
    requires item { list_all is_code_byte item.now ≡ true }
    requires store { list_all is_code_byte store.now ≡ true }
    ensures { OnOk result (Adds text.old.items text.new.items (balance_piece Csv
        (record { item = item.now; store = store.now; qty = record { 0 = qty }; value = record { 0 = pos value } }))) }
{
    push_text(text, item)?;
    push_word(text, b",", store)?;
    push_number(text, b",", qty)?;
    push_number(text, b",", value)?;
    push_bytes(text, br"\n")
}

/// Adds what one warehouse holds of one item.
pub(crate) fn push_balance(
    text: &mut Vec<u8>,
    format: Format,
    heads: &[Head],
    key: Key,
    holding: Holding,
) -> Result<(), NoMemory>
    requires { AreHeads heads.now }
    ensures { OnOk result (Adds text.old.items text.new.items (balance_piece format
        (held_row (code_of heads.now key.item.0) (code_of heads.now key.store.0) holding))) }
{
    let item = code_text(heads, key.item.0);
    let store = code_text(heads, key.store.0);
    match format {
        Format::Json => push_json(text, item, store, holding.units(), holding.value),
        Format::Csv => push_csv(text, item, store, holding.units(), holding.value),
    }
}
