//! The book: the journal, the generation that reports are made from, and the one history of both.
#![tactic(auto)]

pub use stock_model::queries::{Format, Need, Query, SelectFault, Selected, Sheet};

pub mod book;
mod covered_heads;
pub mod events;
pub mod logged;
mod sending;
mod tried;
