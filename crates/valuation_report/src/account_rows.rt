//! The rows of the accounts sheet.
ghost use Rattle.std.specs.Prelude.{OnOk};
ghost use Rattle.valuation_report.specs.AccountPieces.{account_piece};
ghost use Rattle.valuation_report.specs.Adding.{Adds};

use crate::text_parts::{push_bytes, push_number};
use stock_model::ledger_lines::Balance;
use stock_model::queries::Format;
use stock_nums::memory::NoMemory;

/// Adds the row of an account.
pub(crate) fn push_account_row(
    text: &mut Vec<u8>,
    format: Format,
    row: &Balance,
) -> Result<(), NoMemory>
    ensures { OnOk result (Adds text.old.items text.new.items (account_piece format row.now)) }
{
    match format {
        Format::Json => {
            push_number(text, br#"{"account":"#, row.account.0)?;
            push_number(text, br#","balance":"#, row.balance.0)?;
            push_bytes(text, b"},")
        }
        Format::Csv => {
            push_number(text, b"", row.account.0)?;
            push_number(text, b",", row.balance.0)?;
            push_bytes(text, br"\n")
        }
    }
}
