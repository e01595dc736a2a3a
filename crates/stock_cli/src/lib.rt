//! The command line: the top call, which does what the words ask for.
#![tactic(auto)]

pub mod top;
