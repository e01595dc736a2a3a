//! Desks that serve one connection after another, over one book and one listener.
#![tactic(auto)]

pub mod desk;
pub mod finding;
pub mod handing_back;
pub mod visit_laws;
