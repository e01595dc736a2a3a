//! The rows of the voucher sheet.
ghost use Rattle.std.specs.Prelude.{OnOk};
ghost use Rattle.stock_model.specs.LedgerSheets.{voucher_row};
ghost use Rattle.valuation_report.specs.AccountPieces.{voucher_piece};
ghost use Rattle.valuation_report.specs.Adding.{Adds};

use crate::text_parts::{push_bytes, push_number};
use stock_model::ledger_lines::GlLine;
use stock_model::queries::Format;
use stock_nums::memory::NoMemory;

/// Adds the row of a line of the general ledger, which this line of a record makes.
pub(crate) fn push_voucher_row(
    text: &mut Vec<u8>,
    format: Format,
    line: u32,
    made: &GlLine,
) -> Result<(), NoMemory>
    ensures { OnOk result (Adds text.old.items text.new.items (voucher_piece format (voucher_row line made.now))) }
{
    match format {
        Format::Json => {
            push_number(text, br#"{"account":"#, made.account.0)?;
            push_number(text, br#","credit":"#, made.credit.0)?;
            push_number(text, br#","debit":"#, made.debit.0)?;
            push_number(text, br#","line":"#, line)?;
            push_bytes(text, b"},")
        }
        Format::Csv => {
            push_number(text, b"", line)?;
            push_number(text, b",", made.account.0)?;
            push_number(text, b",", made.debit.0)?;
            push_number(text, b",", made.credit.0)?;
            push_bytes(text, br"\n")
        }
    }
}
