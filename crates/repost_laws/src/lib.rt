//! What holds of a revaluation that goes from movement to movement: each movement is valued from what was found of a few
//! earlier ones, and where each is so valued, the whole is the chronological replay. None of it runs: these are facts about
//! plain lists, with their proofs.
#![tactic(auto)]

pub mod build_laws;
pub mod closing_laws;
pub mod fetch_laws;
pub mod index_laws;
pub mod journal_laws;
pub mod local_laws;
pub mod look_laws;
pub mod publication_laws;
pub mod turn_laws;
pub mod value_laws;
pub mod whole_laws;
