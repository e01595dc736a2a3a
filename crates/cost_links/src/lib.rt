//! What each movement of a journal takes over from others, and the replay of all in one pass.
#![tactic(auto)]

mod averages;
pub mod charges;
pub mod links;
mod queues;
pub mod replay;
mod replayed;
mod returns;
mod sending;
mod stocks;
mod sums;
pub mod values;
