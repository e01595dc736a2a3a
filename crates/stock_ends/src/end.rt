//! The ends of a run. Each has a status and a note of its own, in `notes`.
use crate::damage::Damage;

/// How a run ends: at the end of its input or its service, or before.
#[derive(Clone, Copy, Debug, PartialEq, Eq)]
pub enum End {
    /// The input was read to its end, and every line of it answered; or as many peers as were wanted were served, what they had
    /// posted was published, and the summary written.
    Done,
    /// Memory was wanting. Replies that waited were dropped.
    NoMemory,
    /// A read failed. The whole lines before it were answered; of a sheet nothing was posted.
    ReadFailed,
    /// A write failed. A front of the replies was written, or of the summary, or of what is wrong with a sheet.
    WriteFailed,
    /// 2^32 bytes of input were taken, and the whole lines among them were answered; or 2^26 bytes of a sheet, and nothing was posted.
    TooLong,
    /// The ledger's file could not be opened or loaded, and nothing was written, and no line taken; or what a service left could
    /// not be published.
    StoreFailed,
    /// The listener failed. The peers that had come were served, and nothing was written.
    ListenFailed,
    /// The input is no sheet. What is wrong with it first was written, and nothing was posted.
    BadSheet,
    /// What the file holds is none of a ledger. Nothing was written, and no line taken.
    Damaged(Damage),
}
