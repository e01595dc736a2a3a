//! The totals of accounts, as lines are added to them.
ghost use Rattle.std.specs.Prelude.{◌≡◌, ◌≤◌, [], ◌++◌, ◌^◌, ◌+ℤ◌, ◌-ℤ◌, pos, ℕ, List, length, option_to_list, IfOk, OnOk, IsTrue, unsigned_abs};
ghost use Rattle.stock_model.specs.Accounts.{balances_of};
ghost use Rattle.stock_model.specs.Books.{has_lines};
ghost use Rattle.stock_model.specs.LedgerLines.{balance_on, credit_of, debit_of, gl_lines};
ghost use Rattle.stock_model.specs.declared.ledger_lines.GlLine.{GlLine};
ghost use Rattle.stock_model.specs.declared.ledger_lines.TheConstants.{MAX_BALANCE};
ghost use Rattle.gl_lines.specs.Totals.{AreTotals, IsSmallLine, total_on, entry_balance};

use crate::lines::{GlLines, lines_of};
use std::alloc::Global;
use std::collections::BTreeMap;
use stock_model::ledger_lines::{Balance, GlLine};
use stock_nums::entry::Row;
use stock_nums::lines::Lines;
use stock_nums::memory::NoMemory;
use stock_nums::numbers::{AccountNo, Minor};

/// The debits less the credits of each account that lines were added on.
#[derive(Drop)]
pub(crate) struct Totals {
    by_account: BTreeMap<AccountNo, i128>,
}

impl Totals {
    /// No account. It takes no memory.
    pub(crate) fn new(alloc: Global) -> Totals
        ensures { AreTotals result.by_account [] }
    {
        Totals {
            by_account: BTreeMap::new(alloc),
        }
    }

    /// Adds the lines of a movement whose warehouse has this account: at most three.
    pub(crate) fn add_row(&mut self, row: &Row, account: AccountNo) -> Result<(), NoMemory>
        requires lines { IsTrue (has_lines row.now) }
        requires room { (lines : List GlLine) × AreTotals self.old.by_account lines × (length lines ≤ 1_000_000) }
        ensures few { length (gl_lines account.0 row.now) ≤ 3 }
        ensures added { OnOk result ((lines : List GlLine) → AreTotals self.old.by_account lines → AreTotals self.new.by_account (lines ++ gl_lines account.0 row.now)) }
    {
        let GlLines {
            first,
            second,
            third,
        } = lines_of(row, account);
        self.add(first)?;
        self.add(second)?;
        self.add(third)?;
        Ok(())
    }

    /// Adds a line, if there is one.
    fn add(&mut self, line: Option<GlLine>) -> Result<(), NoMemory>
        requires room { (lines : List GlLine) × AreTotals self.old.by_account lines × (length lines ≤ 1_000_002) }
        ensures { OnOk result ((lines : List GlLine) → AreTotals self.old.by_account lines → AreTotals self.new.by_account (lines ++ option_to_list line)) }
    {
        if let Some(line) = line {
            let total = sum(self.total_on(line.account), net(&line));
            self.by_account.insert(line.account, total)?;
        }
        Ok(())
    }

    /// The debits less the credits of an account so far.
    fn total_on(&self, account: AccountNo) -> i128
        ensures { result ≡ total_on self.now.by_account account }
    {
        match self.by_account.get(&account) {
            Some(total) => *total,
            None => 0,
        }
    }

    /// The balances, by ascending accounts.
    pub(crate) fn balances(&self, alloc: Global) -> Result<Lines<Balance>, NoMemory>
        requires { (lines : List GlLine) × AreTotals self.now.by_account lines × ((account : ℕ) → unsigned_abs (balance_on lines account) ≤ MAX_BALANCE) }
        ensures { IfOk result (λ found. (lines : List GlLine) → AreTotals self.now.by_account lines → found ≡ balances_of lines) }
    {
        let mut found = Lines::new(alloc);
        for (account, total) in self.by_account.iter() {
            found.push(balance_of(*account, *total))?;
        }
        Ok(found)
    }
}

/// An account with its balance.
fn balance_of(account: AccountNo, total: i128) -> Balance
    requires { unsigned_abs total ≤ MAX_BALANCE }
    ensures { result ≡ entry_balance (account, total) }
{
    Balance {
        account,
        balance: Minor(total as i64),
    }
}

/// The debit less the credit of a line.
fn net(line: &GlLine) -> i128
    ensures net { result ≡ pos (debit_of line.now) -ℤ pos (credit_of line.now) }
    ensures small { IsSmallLine line.now }
{
    i128::from(line.debit.0.unsigned_abs()) - i128::from(line.credit.0.unsigned_abs())
}

/// The sum of a total that is far from the largest and a difference of two amounts.
fn sum(total: i128, net: i128) -> i128
    requires total { unsigned_abs total ≤ 2 ^ 90 }
    requires net { unsigned_abs net ≤ 2 ^ 63 }
    ensures { result ≡ total +ℤ net }
{
    total + net
}
