//! What a book answers, for those who ask it: the answers to a post and a report, and the texts of answers.
#![tactic(auto)]

pub mod posting;
pub mod refusing;
pub mod reporting;
pub mod texts;
