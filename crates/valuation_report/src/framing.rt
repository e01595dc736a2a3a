//! What stands before and after the rows of a sheet.
ghost use Rattle.std.specs.Prelude.{◌≡◌, IfOk, OnOk};
ghost use Rattle.valuation_report.specs.Pieces.{column_names, csv_piece, opening, closed};
ghost use Rattle.valuation_report.specs.SheetTexts.{sheet_word};
ghost use Rattle.stock_model.specs.declared.queries.Format.TheVariants.{Json};

use crate::text_parts::{push_bytes, push_number, push_word};
use std::alloc::Global;
use stock_model::queries::{Format, Query, Sheet};
use stock_nums::memory::NoMemory;
use stock_nums::numbers::RecordNo;

fn sheet_word(sheet: Sheet) -> &'static str
    ensures { result.now ≡ sheet_word sheet }
{
    match sheet {
        Sheet::Balance => "balance",
        Sheet::Layers => "layers",
        Sheet::Ledger => "ledger",
        Sheet::Accounts => "accounts",
        Sheet::Voucher(_) => "voucher",
    }
}

// The record with the names of a sheet's columns.
fn column_names(sheet: Sheet) -> &'static str
    ensures { result.now ≡ csv_piece (column_names sheet) }
{
    match sheet {
        Sheet::Balance => r"item,store,qty,value\n",
        Sheet::Layers => r"item,store,record,line,qty,value\n",
        Sheet::Ledger => r"item,store,at,record,line,side,qty,value,stock,worth\n",
        Sheet::Accounts => r"account,balance\n",
        Sheet::Voucher(_) => r"line,account,debit,credit\n",
    }
}

/// The text of a report before its rows.
pub(crate) fn opening(alloc: Global, query: &Query, covered: RecordNo) -> Result<Vec<u8>, NoMemory>
    ensures { IfOk result (λ text. text.items ≡ opening query.now.format query.now.sheet covered.0) }
{
    let mut text = Vec::new(alloc);
    push_number(&mut text, br#"{"covered":"#, covered.0)?;
    match query.format {
        Format::Json => {
            push_word(&mut text, br#","report":""#, sheet_word(query.sheet))?;
            push_bytes(&mut text, br#"","rows":["#)?;
            Ok(text)
        }
        Format::Csv => {
            push_word(&mut text, br#","csv":""#, column_names(query.sheet))?;
            Ok(text)
        }
    }
}

// Ends the rows of JSON, of which each has a comma after it.
fn close_json(text: &mut Vec<u8>, sheet: Sheet) -> Result<(), NoMemory>
    ensures { OnOk result (text.new.items ≡ closed Json sheet text.old.items) }
{
    if text.last() == Some(&b',') {
        text.pop();
    }
    text.extend_from_slice(br#"],"status":"ok"}"#)?;
    Ok(())
}

/// Ends the text of a report.
pub(crate) fn close(text: &mut Vec<u8>, query: &Query) -> Result<(), NoMemory>
    ensures { OnOk result (text.new.items ≡ closed query.now.format query.now.sheet text.old.items) }
{
    match query.format {
        Format::Json => close_json(text, query.sheet),
        Format::Csv => {
            push_word(text, br#"","report":""#, sheet_word(query.sheet))?;
            push_bytes(text, br#"","status":"ok"}"#)
        }
    }
}
