//! What a book keeps: an item, a warehouse or a voucher, with the desk that posted it.

ghost use Rattle.std.specs.Prelude.{◌≡◌, ◌≤◌, IsTrue, IfOk};
ghost use Rattle.stock_nums.specs.declared.limits.TheConstants.{MAX_DESK};
ghost use Rattle.stock_model.specs.Limits.{is_within_limits};

use crate::vouchers::What;
use std::alloc::Global;
use stock_nums::memory::NoMemory;
use stock_nums::numbers::DeskNo;

/// What a desk posts. An accepted record is never changed.
#[derive(Drop)]
pub struct Record {
    /// The desk that posted it, from 0 to 16. 0 is the input of a batch.
    pub desk: DeskNo,
    pub what: What,
    pub ghost desks: { desk.0 ≤ MAX_DESK },
    pub ghost limits: { IsTrue (is_within_limits what) },
}

impl Record {
    /// An equal record.
    pub fn copy(&self, alloc: Global) -> Result<Record, NoMemory>
        ensures { IfOk result (λ copy. copy ≡ self.now) }
    {
        Ok(Record {
            desk: self.desk,
            what: self.what.copy(alloc)?,
        })
    }
}
