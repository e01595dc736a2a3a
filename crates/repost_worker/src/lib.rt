//! Who revalues: one turn of the policy over a book and a build, and runs of turns.
#![tactic(auto)]

pub mod opening;
pub mod publication;
pub mod revalued_book;
pub mod run;
pub mod run_laws;
mod sending;
pub mod turn;
