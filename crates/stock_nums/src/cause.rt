//! Why an item moves, and by which formula it is costed.

use crate::numbers::{Minor, Qty, RecordNo};

/// The cost formula of an item (IAS 2.25).
#[derive(Clone, Copy, Debug, PartialEq, Eq)]
pub enum Method {
    /// First in, first out.
    Fifo,
    /// The moving average.
    Average,
}

/// A line of an accepted voucher, which a return or a landed charge names.
#[derive(Clone, Copy, Debug, PartialEq, Eq, PartialOrd, Ord)]
pub struct Target {
    pub voucher: RecordNo,
    /// The line of the voucher, from 1.
    pub line: u32,
}

/// Why an item moves.
#[derive(Clone, Copy, Debug, PartialEq, Eq)]
pub enum Cause {
    /// A receipt, at the line's amount, from 0 to 10^12 minor units. It enters.
    Receipt {
        amount: Minor,
    },
    /// An issue: the units were sold, or else used. It leaves.
    Issue {
        sold: bool,
    },
    /// The side of a transfer line that leaves.
    TransferLeaves,
    /// The side of a transfer line that enters.
    TransferEnters,
    /// Units of a line of an issue come back, of which so many had been issued, from 1 to 10^9. It enters.
    CustomerReturn {
        target: Target,
        issued: Qty,
    },
    /// Units of a line of a receipt go back to the supplier, of which so many had been received, from 1 to
    /// 10^9, at the line's amount, from 0 to 10^12 minor units. It leaves.
    SupplierReturn {
        target: Target,
        amount: Minor,
        received: Qty,
    },
}
