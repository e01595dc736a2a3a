//! That what a turn or a run did, and why a ledger was not opened, may cross from one thread to another.

use crate::opening::NotOpened;
use crate::publication::Publication;
use crate::run::Ran;
use crate::turn::Turned;
use stock_keeper::nowhere::Nowhere;

fn sent<T: Send>() {}

fn what_was_done_may_cross_threads() {
    sent::<Turned>();
    sent::<Ran>();
    sent::<Publication>();
}

fn what_was_not_opened_may_cross_threads() {
    sent::<NotOpened<Nowhere>>();
}
