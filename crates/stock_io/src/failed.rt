//! The one error of the outside world.
/// The outside world failed a call. The source, sink or listener that was called has counted a fault.
#[derive(Debug, Clone, Copy, PartialEq, Eq)]
pub struct Failed;
