//! That what is told may cross from one thread to another.

use crate::differing::Difference;
use crate::open_fault::OpenFault;

fn sent<T: Send>() {}

fn what_is_told_may_cross_threads() {
    sent::<Difference>();
    sent::<OpenFault>();
}
