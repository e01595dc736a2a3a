//! A listener that several desks share under a lock. Contracts see each peer that came through it and each that was handed back.
#![tactic(auto)]

pub mod listener;
pub mod log;
mod logged;
mod sending;
pub mod step;
