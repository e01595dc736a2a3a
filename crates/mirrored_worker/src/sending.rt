//! That what a mirrored run left may cross from one thread to another.

use crate::run_mirrored::Mirroring;
use crate::show_published::Showing;
use stock_keeper::nowhere::Nowhere;

fn sent<T: Send>() {}

fn what_was_left_may_cross_threads() {
    sent::<Showing<Nowhere>>();
    sent::<Mirroring<Nowhere>>();
}
