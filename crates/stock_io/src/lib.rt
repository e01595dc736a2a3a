//! The traits of the outside world: where bytes come from, where they go, and who connects. Each has a
//! double in memory that fails as planned, and stands over the standard streams or over sockets of this
//! machine.
#![tactic(auto)]

mod edge;
pub mod failed;
pub mod link;
pub mod listener;
pub mod memory_link;
pub mod memory_listener;
pub mod memory_sink;
pub mod memory_source;
pub mod net_link;
pub mod net_listener;
pub mod plan;
pub mod sink;
pub mod source;
pub mod standard;
pub mod sure;
