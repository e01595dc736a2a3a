//! That records and the journal may cross from one thread to another.

use crate::journal::Journal;
use stock_model::records::Record;

fn sent<T: Send>() {}

fn records_may_cross_threads() {
    sent::<Journal>();
    sent::<Record>();
}
