//! Whether there is enough of each item in each warehouse at all moments, kept as movements come and go.
#![tactic(auto)]

mod changes;
pub mod running;
mod sending;
mod stretches;
