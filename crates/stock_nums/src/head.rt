ghost use Rattle.std.specs.Prelude.{◌≡◌, IfOk};

use crate::code::Code;
use crate::memory::NoMemory;
use crate::numbers::{AccountNo, RecordNo};
use std::alloc::Global;

/// An item or a warehouse. Only a warehouse has an account.
#[derive(Drop)]
pub struct Head {
    pub number: RecordNo,
    pub code: Code,
    pub account: Option<AccountNo>,
}

impl Head {
    /// An equal head.
    pub fn copy(&self, alloc: Global) -> Result<Head, NoMemory>
        ensures { IfOk result (λ head. head ≡ self.now) }
    {
        Ok(Head {
            number: self.number,
            code: self.code.copy(alloc)?,
            account: self.account,
        })
    }
}
