//! Movements under revaluation: each with what was last found of it, what it takes over from others, which others it makes
//! suspect when it is new, and to which a new value spreads.
#![tactic(auto)]

mod linking;
pub mod movements;
mod naming;
mod sending;
mod spreading;
mod taking;
mod touching;
