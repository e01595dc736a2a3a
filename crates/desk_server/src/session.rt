//! How a session ends, and how many bytes it takes.

/// The most bytes that are taken of a peer.
pub const BYTE_LIMIT: u64 = 4_294_967_296;

/// How a session ended.
#[derive(Debug, Clone, Copy, PartialEq, Eq)]
pub enum End {
    /// The peer ended between requests, or a request that was answered asked to close.
    Closed,
    /// The peer ended, and so many of its bytes, at least 1, are no whole request.
    Cut { left: usize },
    /// The next request was refused with this status.
    Refused { status: u16 },
    /// A read failed: the link counted a fault.
    ReadFault,
    /// A write failed: the link counted a fault.
    WriteFault,
    /// As many bytes were taken as may be.
    TooMuch,
    /// Memory was wanting before the first read.
    NoMemory,
}
