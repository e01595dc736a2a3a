//! That a timeline may cross from one thread to another.

use crate::timeline::Timeline;

fn sent<T: Send>() {}

fn timelines_may_cross_threads() {
    sent::<Timeline>();
}
