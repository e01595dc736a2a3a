//! What is heard of a stream: its requests, and why they stop.
/// A whole request at the front of the bytes that wait, by its lengths: it is not copied.
#[derive(Debug, Clone, Copy, PartialEq, Eq)]
pub struct Request {
    /// How many bytes the head has.
    pub head: usize,
    /// How many bytes the body has, which follows the head.
    pub body: usize,
    /// Whether the connection ends after the request.
    pub close: bool,
}

/// Why no further request is heard.
#[derive(Debug, Clone, Copy, PartialEq, Eq)]
pub enum Stop {
    /// The next request is refused with this status.
    Refused { status: u16 },
    /// The stream ended. What waits is no whole request.
    Ended,
    /// As many bytes were taken as may be, before the end was seen. What waits is no whole request.
    TooMuch,
}

/// What is heard next of a stream.
#[derive(Debug, Clone, Copy, PartialEq, Eq)]
pub enum Heard {
    /// The next request.
    Next(Request),
    /// No further request.
    Last(Stop),
}
