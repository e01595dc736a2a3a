//! That what was fetched may cross from one thread to another.

use crate::fetch::Fetched;

fn sent<T: Send>() {}

fn what_was_fetched_may_cross_threads() {
    sent::<Fetched>();
}
