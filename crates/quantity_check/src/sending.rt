//! That the running quantities may cross from one thread to another.

use crate::running::Running;

fn sent<T: Send>() {}

fn quantities_may_cross_threads() {
    sent::<Running>();
}
