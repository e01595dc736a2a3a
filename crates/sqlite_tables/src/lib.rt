//! The ledger's tables in a database of SQLite, and what each statement makes of them.
#![tactic(auto)]

mod finding;
pub mod making;
mod parsing;
mod preparing;
pub mod reading;
mod recognizing;
pub mod renewing;
mod statements;
pub mod stored_tables;
mod upgrading;
pub mod writing;
