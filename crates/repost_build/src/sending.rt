//! That a build may cross from one thread to another.

use crate::build::Build;

fn sent<T: Send>() {}

fn builds_may_cross_threads() {
    sent::<Build>();
}
