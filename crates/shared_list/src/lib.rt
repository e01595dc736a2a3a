//! A list that several may hold at once, and of which none has a copy.
#![tactic(auto)]

pub mod blocks;
pub mod list;
mod sending;
