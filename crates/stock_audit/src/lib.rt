//! An audit of the ledger in a file: its tables are loaded and checked, and the verdict is written.
#![tactic(auto)]

pub mod audited;
mod verdict_texts;
