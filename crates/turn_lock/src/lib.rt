//! A lock that hands out a value in turn. What is taken begins with all that its taker had seen.
#![tactic(auto)]

pub mod held;
pub mod lock;
pub mod logged;
pub mod pass;
mod plays;
mod rule;
mod sending;
pub mod view;
