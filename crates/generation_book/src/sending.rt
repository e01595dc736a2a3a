//! That the book, what reports are made from, and a lock round the book may cross from one thread to another.

use crate::book::Book;
use stock_keeper::nowhere::Nowhere;
use stock_model::queries::Selected;
use turn_lock::lock::TurnLock;
use turn_lock::pass::Pass;

fn sent<T: Send>() {}

fn shared<T: Sync>() {}

fn book_may_cross_threads() {
    sent::<Book<Nowhere>>();
    sent::<Selected>();
}

fn locked_book_may_be_shared() {
    shared::<TurnLock<Book<Nowhere>>>();
    sent::<TurnLock<Book<Nowhere>>>();
    sent::<Pass<Book<Nowhere>>>();
}
