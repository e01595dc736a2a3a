//! That what the desks of a service share may be shared by threads, and that what a desk has may cross from one to another.
use crate::commons::Commons;
use crate::desk::Parts;
use stock_io::listener::Listener;
use stock_keeper::keeper::Keeper;

fn shared<T: Sync>() {}

fn sent<T: Send>() {}

fn commons_may_be_shared<K: Keeper + Send, L: Listener + Send>() {
    shared::<Commons<K, L>>();
}

fn desk_may_cross_threads<K: Keeper + Send, L: Listener + Send>() {
    sent::<Parts<K, L>>();
}
