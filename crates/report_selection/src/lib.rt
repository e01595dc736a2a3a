//! What a report is made from: of the rows of a replay those up to the moment that is asked for.
#![tactic(auto)]

pub mod until;
