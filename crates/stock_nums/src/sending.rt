//! That what the ledger hands from one thread to another may cross.

use crate::code::Code;
use crate::entry::{Entry, Row};
use crate::head::Head;
use crate::lines::Lines;

fn sent<T: Send>() {}

fn values_may_cross_threads() {
    sent::<Entry>();
    sent::<Code>();
    sent::<Head>();
    sent::<Lines<Row>>();
    sent::<Lines<Head>>();
}
