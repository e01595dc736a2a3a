//! The rows of the voucher sheet, one after another.
ghost use Rattle.std.specs.Prelude.{◌≡◌, ◌≤◌, true, length, map, IsTrue, OnOk};
ghost use Rattle.std.specs.List.{flat_map, list_all};
ghost use Rattle.stock_model.specs.Books.{AreHeads, has_lines};
ghost use Rattle.stock_model.specs.LedgerSheets.{voucher_row, voucher_rows};
ghost use Rattle.valuation_report.specs.AccountPieces.{record_rows, voucher_piece};
ghost use Rattle.valuation_report.specs.Adding.{Adds};
ghost use Rattle.valuation_report.specs.declared.voucher_sheet.TheConstants.{MAX_LINES};

use crate::store_accounts::account_of;
use crate::voucher_rows::push_voucher_row;
use gl_lines::lines::{GlLines, lines_of};
use shared_list::blocks::SharedBlocks;
use stock_model::queries::Format;
use stock_nums::entry::Row;
use stock_nums::head::Head;
use stock_nums::memory::NoMemory;
use stock_nums::numbers::RecordNo;

// The most lines of the general ledger that a movement makes.
const MAX_LINES: usize = 3;

// Adds a row for each line of the general ledger, all made by this line of a record.
fn push_lines(
    text: &mut Vec<u8>,
    format: Format,
    line: u32,
    lines: &GlLines,
) -> Result<(), NoMemory>
    requires { length lines.now ≤ MAX_LINES }
    ensures { OnOk result (Adds text.old.items text.new.items (flat_map (voucher_piece format) (map (voucher_row line) lines.now))) }
{
    for place in 0..MAX_LINES {
        if let Some(made) = lines.at(place) {
            push_voucher_row(text, format, line, &made)?;
        }
    }
    Ok(())
}

// Adds a row for each line of the general ledger that a movement makes.
fn push_movement(
    text: &mut Vec<u8>,
    format: Format,
    heads: &[Head],
    row: &Row,
) -> Result<(), NoMemory>
    requires heads { AreHeads heads.now }
    requires lines { IsTrue (has_lines row.now) }
    ensures { OnOk result (Adds text.old.items text.new.items (flat_map (voucher_piece format) (voucher_rows heads.now row.now))) }
{
    let account = account_of(heads, row.entry.store);
    let lines = lines_of(row, account);
    push_lines(text, format, row.entry.place.line, &lines)
}

/// Adds a row for each line of the general ledger that the movements of this record make.
pub(crate) fn push_voucher(
    text: &mut Vec<u8>,
    format: Format,
    heads: &[Head],
    rows: &SharedBlocks<Row>,
    number: RecordNo,
) -> Result<(), NoMemory>
    requires heads { AreHeads heads.now }
    requires lines { list_all has_lines rows.now ≡ true }
    ensures { OnOk result (Adds text.old.items text.new.items (flat_map (voucher_piece format) (record_rows number.0 heads.now rows.now))) }
{
    for row in rows.items() {
        if row.entry.place.voucher.0 == number.0 {
            push_movement(text, format, heads, row)?;
        }
    }
    Ok(())
}
