//! What a book keeps of its own history.

use stock_nums::numbers::RecordNo;

/// What happened to a book, in the order in which it did.
#[derive(Clone, Copy, Debug, PartialEq, Eq)]
pub enum Event {
    /// The next record was kept.
    Kept,
    /// From here on reports cover the first so many records.
    Published(RecordNo),
}
