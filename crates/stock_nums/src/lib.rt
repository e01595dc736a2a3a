//! The numbers, moments, places and movements that every crate of the stock ledger speaks of.
#![tactic(auto)]

pub mod cause;
pub mod code;
pub mod entry;
pub mod first_in;
pub mod half_up;
pub mod head;
pub mod limits;
pub mod line_sums;
pub mod lines;
pub mod memory;
pub mod moment;
pub mod moment_text;
pub mod numbers;
pub mod part;
pub mod place;
mod sending;
pub mod steps;
