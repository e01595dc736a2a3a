//! A batch: the lines of an input answered over a book.
#![tactic(auto)]

pub mod answering;
pub mod batch;
mod blank;
pub mod filed;
pub mod open_line;
pub mod running;
mod split;
pub mod waiting;
pub mod work_laws;
