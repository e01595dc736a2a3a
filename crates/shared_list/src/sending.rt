//! That lists may be held in several threads where their items may.

use crate::blocks::SharedBlocks;
use crate::list::SharedList;

fn sent<T: Send>() {}

fn lists_may_cross_threads<T: Drop + Send + Sync>() {
    sent::<SharedList<T>>();
    sent::<SharedBlocks<T>>();
}
