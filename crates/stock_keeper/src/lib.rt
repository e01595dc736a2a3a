//! What keeps the ledger's tables between runs: the traits of a keeper and of the shelf that hands it out,
//! and a double of each in memory that fails as planned and shows what a crash may leave.
#![tactic(auto)]

pub mod changes;
pub mod fault;
pub mod keeper;
pub mod memory_keeper;
pub mod memory_shelf;
pub mod nowhere;
pub mod opened_path;
mod sending;
pub mod shelf;
pub mod tables;
pub mod worths;
