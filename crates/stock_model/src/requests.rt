//! What a line of input asks for: every word that a desk can say.

use crate::queries::Query;
use crate::vouchers::What;

/// What a line of input asks for.
#[derive(Drop)]
pub enum Request {
    Post(What),
    /// How many turns a worker makes at most, from 1 to 1,000,000.
    Work(u32),
    Settle,
    Report(Query),
}
