//! The words of the program: what they ask for.
#![tactic(auto)]

mod commands;
mod number_words;
pub mod serve_words;
pub mod words;
