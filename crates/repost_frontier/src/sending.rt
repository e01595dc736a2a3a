//! That a frontier may cross from one thread to another.

use crate::frontier::Frontier;

fn sent<T: Send>() {}

fn frontier_may_cross_threads() {
    sent::<Frontier>();
}
