//! What units that leave a store cost, by each of the cost formulas of IAS 2.25.
#![tactic(auto)]

pub mod average;
mod layer;
pub mod layers;
mod sending;
