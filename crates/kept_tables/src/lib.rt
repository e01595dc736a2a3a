//! What the tables of a keeper hold of a history, what each event changes of them, and which tables are opened again.
#![tactic(auto)]

pub mod checking;
pub mod differing;
pub mod open_fault;
pub mod publishing;
mod sending;
pub mod table_laws;
