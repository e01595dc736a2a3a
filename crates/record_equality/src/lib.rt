//! Whether two records are equal: by who posted them, and by every part of what they say.
#![tactic(auto)]

mod lines;
mod parts;
pub mod records;
mod whats;
