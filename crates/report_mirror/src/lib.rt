//! A mirror of the generation that was published last: reports are read from it without the book's lock. One worker shows a generation
//! there, and each reader meets whole ones alone, which never go back.
#![tactic(auto)]

pub mod generation;
pub mod mirror;
pub mod reader;
pub mod record_blocks;
mod record_walk;
mod sending;
mod shown;
