//! That what is held may cross from one thread to another.

use crate::links::Links;
use crate::values::Valued;

fn sent<T: Send>() {}

fn what_is_held_may_cross_threads() {
    sent::<Links>();
    sent::<Valued>();
}
