//! The ledger's tables in a database of SQLite, which any `sqlite3` opens.
#![tactic(auto)]

mod refusing;
mod sending;
pub mod sqlite_keeper;
pub mod sqlite_shelf;
mod standing;
pub mod supposing;
