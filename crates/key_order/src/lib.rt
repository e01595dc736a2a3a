//! Changes of what is held by item and warehouse, and then in posting order, each found by its place without going over them
//! all.
#![tactic(auto)]

pub mod change;
mod key_bounds;
pub mod order;
mod sending;
