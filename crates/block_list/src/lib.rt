//! A list that takes an item in or out at any place by moving few others, and that knows the sums of what its items count.
#![tactic(auto)]

mod at_bound;
mod block;
mod blocks;
pub mod bound;
pub mod change;
pub mod crossing;
mod groups;
mod heads;
pub mod list;
mod sending;
mod sums;
mod walks;
pub mod weigh;
