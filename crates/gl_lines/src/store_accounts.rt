//! The accounts of the warehouses.
ghost use Rattle.std.specs.Prelude.{◌≡◌, List, ◌∷◌, ◌++◌, [], IfOk, OnOk};
ghost use Rattle.stock_nums.specs.declared.head.Head.{Head};
ghost use Rattle.stock_model.specs.LedgerLines.{account_of};
ghost use Rattle.gl_lines.specs.StoreAccounts.{account_no, AreAccountsOf};

use std::alloc::Global;
use std::collections::BTreeMap;
use stock_nums::head::Head;
use stock_nums::memory::NoMemory;
use stock_nums::numbers::{AccountNo, RecordNo, StoreNo};

/// The account of each head, found by its number; of a number that comes again the first one's.
#[derive(Drop)]
pub(crate) struct StoreAccounts {
    by_number: BTreeMap<RecordNo, AccountNo>,
}

impl StoreAccounts {
    /// The accounts of these heads.
    pub(crate) fn of(alloc: Global, heads: &[Head]) -> Result<StoreAccounts, NoMemory>
        ensures { IfOk result (λ accounts. AreAccountsOf accounts.by_number heads.now) }
    {
        let mut accounts = StoreAccounts {
            by_number: BTreeMap::new(alloc),
        };
        for head in heads {
            accounts.add(head)?;
        }
        Ok(accounts)
    }

    /// The account of the warehouse with this number, or 0. It takes no memory.
    pub(crate) fn account_of(&self, store: StoreNo) -> AccountNo
        ensures { (heads : List Head) → AreAccountsOf self.now.by_number heads → result.0 ≡ account_of heads store.0 }
    {
        match self.by_number.get(&RecordNo(store.0)) {
            Some(account) => *account,
            None => AccountNo(0),
        }
    }

    fn add(&mut self, head: &Head) -> Result<(), NoMemory>
        ensures { OnOk result ((heads : List Head) → AreAccountsOf self.old.by_number heads → AreAccountsOf self.new.by_number (heads ++ head.now ∷ [])) }
    {
        if self.by_number.contains_key(&head.number) {
            return Ok(());
        }
        self.by_number.insert(head.number, account_no(head))?;
        Ok(())
    }
}

/// The account of a head, 0 where it has none.
fn account_no(head: &Head) -> AccountNo
    ensures { result ≡ account_no head.now }
{
    match head.account {
        Some(account) => account,
        None => AccountNo(0),
    }
}
