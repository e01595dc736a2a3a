//! What a record does to the movements of a ledger: which come, and which it takes back.
#![tactic(auto)]

pub mod effect;
