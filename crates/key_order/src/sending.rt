//! That changes in key order may cross from one thread to another.

use crate::order::KeyOrder;

fn sent<T: Send>() {}

fn changes_may_cross_threads() {
    sent::<KeyOrder>();
}
