//! The sheets of the general ledger: its accounts, and the lines of a record.
ghost use Rattle.std.specs.Prelude.{◌≡◌, IfOk};
ghost use Rattle.stock_model.specs.Books.{CanBeShown};
ghost use Rattle.stock_model.specs.declared.queries.Sheet.TheVariants.{Accounts, Voucher};
ghost use Rattle.valuation_report.specs.SheetTexts.{report_text};

use crate::account_sheet::push_accounts;
use crate::framing::{close, opening};
use crate::voucher_sheet::push_voucher;
use std::alloc::Global;
use stock_model::queries::{Query, Selected};
use stock_nums::memory::NoMemory;
use stock_nums::numbers::RecordNo;

/// The text of a report of the accounts.
///
/// # Errors
///
/// `NoMemory`: memory was wanting.
pub(crate) fn accounts_text(
    alloc: Global,
    selected: &Selected,
    query: &Query,
) -> Result<Vec<u8>, NoMemory>
    requires shown { CanBeShown selected.now }
    requires sheet { query.now.sheet ≡ Accounts }
    ensures { IfOk result (λ text. text.items ≡ report_text query.now selected.now) }
{
    let heads = selected.heads.as_slice();
    let mut text = opening(alloc, query, selected.covered)?;
    push_accounts(alloc, &mut text, query.format, heads, &selected.rows)?;
    close(&mut text, query)?;
    Ok(text)
}

/// The text of a report of the record with this number.
///
/// # Errors
///
/// `NoMemory`: memory was wanting.
pub(crate) fn voucher_text(
    alloc: Global,
    selected: &Selected,
    query: &Query,
    number: RecordNo,
) -> Result<Vec<u8>, NoMemory>
    requires shown { CanBeShown selected.now }
    requires sheet { query.now.sheet ≡ Voucher number }
    ensures { IfOk result (λ text. text.items ≡ report_text query.now selected.now) }
{
    let heads = selected.heads.as_slice();
    let mut text = opening(alloc, query, selected.covered)?;
    push_voucher(&mut text, query.format, heads, &selected.rows, number)?;
    close(&mut text, query)?;
    Ok(text)
}
