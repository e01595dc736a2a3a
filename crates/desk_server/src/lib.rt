//! A desk and its peer: how requests are answered over a book that desks share, and how a session ends.
#![tactic(auto)]

pub mod answering;
pub mod exchanging;
pub mod refusing;
pub mod responding;
pub mod session;
pub mod statuses;
pub mod writing;
