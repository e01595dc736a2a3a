//! That an index may cross from one thread to another.

use crate::index::Index;

fn sent<T: Send>() {}

fn indexes_may_cross_threads() {
    sent::<Index>();
}
