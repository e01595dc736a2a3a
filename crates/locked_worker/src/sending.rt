//! That what a turn under the lock left may cross from one thread to another.

use crate::locked_turn::Worked;
use stock_keeper::nowhere::Nowhere;

fn sent<T: Send>() {}

fn what_was_left_may_cross_threads() {
    sent::<Worked<Nowhere>>();
}
