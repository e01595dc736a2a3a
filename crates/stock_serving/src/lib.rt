//! A service: desks that answer over a ledger that is kept, and what they leave of it.
#![tactic(auto)]

mod putting_back;
pub mod serving;
