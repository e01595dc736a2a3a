//! An audit of stored tables: a second, plainer way to find whether the stored worths are the replay of the published records.
#![tactic(auto)]

pub mod audit_laws;
pub mod auditing;
mod charges;
mod comparing;
mod finding;
mod legal_journal;
mod moved;
mod moved_by_key;
mod reading;
mod rows_before;
mod stored_worths;
pub mod verdict;
