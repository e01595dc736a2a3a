//! A worker beside a mirror: after each publication it shows there what was published, so that reports are read without the book's
//! lock.
#![tactic(auto)]

pub mod mirrored_run_laws;
pub mod next_generation;
pub mod run_mirrored;
mod sending;
pub mod show_published;
mod shown_turn;
