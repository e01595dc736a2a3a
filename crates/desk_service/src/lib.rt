//! Desks and a worker in threads of their own, over one book and one listener.
#![tactic(auto)]

mod accepting;
mod alone;
mod closing;
mod commons;
mod desk;
mod ending;
mod ending_writer;
mod equipment;
mod gate;
mod locking;
mod meeting;
mod passes;
mod sending;
pub mod service;
mod worker;
