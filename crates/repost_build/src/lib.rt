//! A build: the movements of a journal's records, revalued one after another where something they look at changed.
#![tactic(auto)]

pub mod build;
mod row_blocks;
mod row_equality;
mod sending;
mod slot_rows;
