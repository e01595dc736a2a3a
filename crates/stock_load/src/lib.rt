//! A load: the lines of a script answered over a new book, of which the sums alone are told.
#![tactic(auto)]

pub mod load;
