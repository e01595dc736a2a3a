//! The rows of the accounts sheet, one after another.
ghost use Rattle.std.specs.Prelude.{◌≡◌, IfOk, OnOk};
ghost use Rattle.std.specs.List.{flat_map};
ghost use Rattle.stock_model.specs.Accounts.{balances};
ghost use Rattle.stock_model.specs.Books.{HaveBalances};
ghost use Rattle.valuation_report.specs.AccountPieces.{account_piece};
ghost use Rattle.valuation_report.specs.Adding.{Adds};

use crate::account_rows::push_account_row;
use gl_lines::balances::balances;
use shared_list::blocks::SharedBlocks;
use std::alloc::Global;
use stock_model::queries::Format;
use stock_nums::entry::Row;
use stock_nums::head::Head;
use stock_nums::memory::NoMemory;

// The rows in one piece, as the balances are made of them.
fn in_one_piece(alloc: Global, rows: &SharedBlocks<Row>) -> Result<Vec<Row>, NoMemory>
    ensures { IfOk result (λ whole. whole.items ≡ rows.now) }
{
    let mut whole = Vec::new(alloc);
    for row in rows.items() {
        whole.push(*row)?;
    }
    Ok(whole)
}

/// Adds a row for the balance of each account that the movements have a line on, by ascending accounts.
pub(crate) fn push_accounts(
    alloc: Global,
    text: &mut Vec<u8>,
    format: Format,
    heads: &[Head],
    rows: &SharedBlocks<Row>,
) -> Result<(), NoMemory>
    requires { HaveBalances heads.now rows.now }
    ensures { OnOk result (Adds text.old.items text.new.items (flat_map (account_piece format) (balances heads.now rows.now))) }
{
    let whole = in_one_piece(alloc, rows)?;
    let found = balances(alloc, whole.as_slice(), heads)?;
    let accounts = found.as_slice();
    for account in accounts {
        push_account_row(text, format, account)?;
    }
    Ok(())
}
