//! The items and warehouses of a book, found by their codes without going over them all.
#![tactic(auto)]

pub mod faults;
pub mod master;
mod register;
