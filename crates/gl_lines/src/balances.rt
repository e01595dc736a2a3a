//! The balances of the accounts.
ghost use Rattle.std.specs.Prelude.{◌≡◌, IfOk};
ghost use Rattle.stock_model.specs.Accounts.{balances};
ghost use Rattle.stock_model.specs.Books.{HaveBalances};

use crate::store_accounts::StoreAccounts;
use crate::totals::Totals;
use std::alloc::Global;
use stock_model::ledger_lines::Balance;
use stock_nums::entry::Row;
use stock_nums::head::Head;
use stock_nums::lines::Lines;
use stock_nums::memory::NoMemory;

/// The balance of each account that the movements have a line on, its debits less its credits, by ascending accounts. A
/// movement's warehouse is found among the heads; where it is missing, its account is 0.
///
/// # Errors
///
/// `NoMemory`: memory was wanting.
pub fn balances(alloc: Global, rows: &[Row], heads: &[Head]) -> Result<Lines<Balance>, NoMemory>
    requires { HaveBalances heads.now rows.now }
    ensures { IfOk result (λ found. found ≡ balances heads.now rows.now) }
{
    let accounts = StoreAccounts::of(alloc, heads)?;
    let mut totals = Totals::new(alloc);
    for row in rows {
        totals.add_row(row, accounts.account_of(row.entry.store))?;
    }
    let found = totals.balances(alloc)?;
    Ok(found)
}
