//! Movements in posting order, each with what was last found of it: which of them a revaluation has to value, and which is the
//! first.
#![tactic(auto)]

pub mod frontier;
mod sending;
pub mod slot;
pub mod slot_laws;
