//! HTTP on the wire: bytes to whole requests, however they are cut, and responses to bytes.
#![tactic(auto)]

mod close;
mod fields;
pub mod framing;
pub mod heard;
pub mod inbox;
mod length;
pub mod response;
pub mod wire;
