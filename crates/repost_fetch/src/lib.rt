//! What further records of a journal bring to a revaluation, and what they take back: movements, and what is charged to lines of
//! receipts.
#![tactic(auto)]

pub mod fetch;
mod sending;
pub mod taken_back;
