//! How the movements that look at one another are found: the one before and the one after of an item in a warehouse, those
//! that brought or took a unit, and the one of a line of a voucher.
#![tactic(auto)]

pub mod index;
pub mod layer_laws;
mod moments;
mod sending;
