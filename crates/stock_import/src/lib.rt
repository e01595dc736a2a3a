//! An import: the vouchers of a sheet posted over a ledger, and its counts.
#![tactic(auto)]

pub mod filed;
mod import;
mod running;
