//! That units by their numbers may cross from one thread to another.

use crate::ranges::Ranges;

fn sent<T: Send>() {}

fn ranges_may_cross_threads() {
    sent::<Ranges>();
}
