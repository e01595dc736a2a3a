//! The history that contracts speak of.

use crate::records::Record;
use stock_nums::numbers::RecordNo;

/// What was done to a book, whole: a record was kept, with all that it says, or a generation was published. Contracts speak
/// of lists of these; the program makes none. The word is not "event", which a lock's history and a book's short notes of
/// its own have: an event of a book names a record, and a deed holds it.
#[derive(Drop)]
pub enum Deed {
    /// The record was accepted.
    Kept(Record),
    /// From here on the reports cover the first so many records.
    Published(RecordNo),
}
