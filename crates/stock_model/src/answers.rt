//! What a request is answered.

use crate::queries::{Query, Selected};
use crate::replies::Reply;
use stock_nums::head::Head;
use stock_nums::lines::Lines;

/// What a request is answered: a reply, or the sheet that a report asks for. It is the answer itself, and not its text.
#[derive(Drop)]
pub enum Answer {
    /// A reply, with the items and warehouses that it names.
    Told { reply: Reply, heads: Lines<Head> },
    /// The sheet that this query asks for, made of what was selected.
    Shown { query: Query, selected: Selected },
}
