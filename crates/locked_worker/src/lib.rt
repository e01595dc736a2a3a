//! A worker beside desks: turns of the policy over a book that threads share, and the gate that lets a worker go on from one to the next.
#![tactic(auto)]

mod after_stop;
mod ahead;
pub mod gate;
pub mod gated_run_laws;
pub mod locked_turn;
mod sending;
mod stop;
