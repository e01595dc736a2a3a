//! The records that desks post, and the journal that keeps them.
#![tactic(auto)]

pub use stock_model::faults::PostFault;
pub use stock_model::records::Record;
pub use stock_model::vouchers::{ReceiptLine, What};

mod heads;
pub mod journal;
mod namers;
mod returned_units;
mod sending;
mod takers;
