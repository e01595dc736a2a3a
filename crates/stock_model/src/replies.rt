//! What a line of input is answered, where it is no report that is met.

use crate::faults::PostFault;
use crate::read_faults::ReadFault;
use stock_nums::numbers::RecordNo;

/// What a line of input is answered. A report that is met is answered by a sheet, a text of its own.
#[derive(Clone, Copy, Debug, PartialEq, Eq)]
pub enum Reply {
    /// The record was accepted under this number.
    Accepted(RecordNo),
    /// The record was refused for this fault.
    Refused(PostFault),
    /// The wanted record is accepted, and not among the first `covered` ones, which reports show.
    Pending {
        covered: RecordNo,
        wanted: RecordNo,
    },
    /// The wanted record is not among the `accepted` ones.
    NoSuchRecord {
        accepted: RecordNo,
        wanted: RecordNo,
    },
    /// The reports cover this many records now, after some turns of a worker.
    Worked(RecordNo),
    /// The reports cover this many records now: all that are accepted.
    Settled(RecordNo),
    /// The line has more than 65,536 bytes.
    Long,
    /// The line is no request, for this fault.
    Bad(ReadFault),
    /// The keeper failed, and nothing changed but what turns before had published.
    StoreFailed,
    /// Memory was wanting, and nothing changed.
    MemoryFailed,
    /// The bytes are no HTTP request.
    Http,
}
