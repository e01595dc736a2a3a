//! What holds of a desk's session where reports may be read from a mirror beside the lock. None of it runs: these are definitions and
//! facts about plain lists, with their proofs.
#![tactic(auto)]

pub mod mirrored_laws;
