//! Counts of stock as ordinary vouchers: an issue of what is missing, and a receipt of what there is too much.
#![tactic(auto)]

mod corrections;
pub mod count_laws;
mod holding;
pub mod plan;
pub mod planning;
