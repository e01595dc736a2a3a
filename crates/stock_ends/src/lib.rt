//! How a run ends: its status, the line that notes it, and what a ledger that is opened or not makes of it.
#![tactic(auto)]

pub mod damage;
pub mod end;
pub mod notes;
pub mod opening;
