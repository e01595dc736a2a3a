//! A desk and its peer, where reports are read from a mirror of the generation that was published last, beside the book's lock.
#![tactic(auto)]

pub mod exchanging;
mod last_report;
pub mod report_reader;
mod serving;
pub mod session;
