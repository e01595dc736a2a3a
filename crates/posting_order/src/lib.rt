//! The movements of a book in posting order, each found by its place without going over them all.
#![tactic(auto)]

mod entry_line;
mod sending;
pub mod timeline;
