//! That what keeps a ledger may cross from one thread to another.

use crate::memory_keeper::MemKeeper;
use crate::memory_shelf::MemShelf;
use crate::nowhere::Nowhere;
use crate::tables::Tables;

fn sent<T: Send>() {}

fn values_may_cross_threads() {
    sent::<Tables>();
    sent::<MemKeeper>();
    sent::<MemShelf>();
    sent::<Nowhere>();
}
