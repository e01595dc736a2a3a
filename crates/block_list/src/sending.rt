//! That a list may cross from one thread to another where its items may.

use crate::list::BlockList;
use crate::weigh::Weigh;

fn sent<T: Send>() {}

fn list_may_cross_threads<T: Copy + Send, W: Weigh<T> + Send>() {
    sent::<BlockList<T, W>>();
}
