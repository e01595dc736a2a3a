//! What holds of a desk's session: of the exchanges of one desk, where many desks share one history through a lock. None of it
//! runs: these are definitions and facts about plain lists, with their proofs.
#![tactic(auto)]

pub mod answer_laws;
pub mod served_laws;
pub mod session_laws;
