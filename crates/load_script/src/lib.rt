//! The script of a load: the text of its lines, by their number alone.
#![tactic(auto)]

pub mod lines;
