//! What all desks of a service share.

use crate::alone::Alone;
use generation_book::book::Book;
use shared_listener::listener::SharedListener;
use stock_io::listener::Listener;
use stock_keeper::keeper::Keeper;
use turn_lock::lock::TurnLock;

/// The locks round the book and round the listener, and the word by which a desk learns that it has no thread.
pub struct Commons<K: Keeper, L: Listener> {
    pub lock: TurnLock<Book<K>>,
    pub shared: TurnLock<SharedListener<L>>,
    pub alone: Alone,
}
