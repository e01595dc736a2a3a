//! The text of a report.
ghost use Rattle.std.specs.Prelude.{◌≡◌, IfOk};
ghost use Rattle.stock_model.specs.Books.{CanBeShown, KeepsStock};
ghost use Rattle.stock_model.specs.Reports.{IsSelected};
ghost use Rattle.valuation_report.specs.SheetTexts.{report_text};

use crate::balance_sheet::balance_text;
use crate::ledger_sheets::{accounts_text, voucher_text};
use crate::sheets::grouped_text;
use std::alloc::Global;
use stock_laws::selected_laws::{all_can_be_shown, the_ledger_keeps_the_stock};
use stock_model::queries::{Query, Selected, Sheet};
use stock_nums::lines::Lines;
use stock_nums::memory::NoMemory;

/// The text of the sheet that a query asks for, in its format, with how many records it covers. It is made in one pass over
/// what was selected, that of the accounts in two. It shows amounts in minor units and quantities in smallest units. The
/// ledger keeps the stock that the report is made from: the accounts of warehouses are what they hold (IAS 2), and all
/// balances sum to nothing.
///
/// # Errors
///
/// `NoMemory`: memory was wanting.
pub fn report_text(alloc: Global, selected: &Selected, query: &Query) -> Result<Lines<u8>, NoMemory>
    requires { IsSelected query.now selected.now }
    ensures text { IfOk result (λ text. text ≡ report_text query.now selected.now) }
    ensures keeps { KeepsStock selected.now }
{
    the_ledger_keeps_the_stock();
    all_can_be_shown();
    Ok(Lines::from_vec(text_of(alloc, selected, query)?))
}

fn text_of(alloc: Global, selected: &Selected, query: &Query) -> Result<Vec<u8>, NoMemory>
    requires { CanBeShown selected.now }
    ensures { IfOk result (λ text. text.items ≡ report_text query.now selected.now) }
{
    match query.sheet {
        Sheet::Balance => balance_text(alloc, selected, query),
        Sheet::Layers | Sheet::Ledger => grouped_text(alloc, selected, query),
        Sheet::Accounts => accounts_text(alloc, selected, query),
        Sheet::Voucher(number) => voucher_text(alloc, selected, query, number),
    }
}
