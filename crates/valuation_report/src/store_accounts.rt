//! The accounts of warehouses by their numbers.
ghost use Rattle.std.specs.Prelude.{◌≡◌};
ghost use Rattle.stock_model.specs.Books.{AreHeads};
ghost use Rattle.stock_model.specs.LedgerLines.{account_of};

use crate::code_texts::head_with;
use stock_nums::head::Head;
use stock_nums::numbers::{AccountNo, StoreNo};

/// The account of the warehouse with this number, or 0.
pub(crate) fn account_of(heads: &[Head], store: StoreNo) -> AccountNo
    requires { AreHeads heads.now }
    ensures { result.0 ≡ account_of heads.now store.0 }
{
    head_with(heads, store.0)
        .and_then(|head| head.account)
        .unwrap_or(AccountNo(0))
}
