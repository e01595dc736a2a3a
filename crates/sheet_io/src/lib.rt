//! The sheet that an input is, and the lines that tell of one.
#![tactic(auto)]

pub mod lines;
pub mod taking;
