//! The units of each item in each warehouse by their numbers: which movement a unit entered or left with.
#![tactic(auto)]

pub mod layer;
pub mod ranges;
mod sending;
