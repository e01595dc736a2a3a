//! Lines of earlier vouchers, as later vouchers name them.

use stock_nums::cause::Target;

/// The kind of voucher that a target has to be a line of.
#[derive(Clone, Copy, Debug, PartialEq, Eq)]
pub enum TargetKind {
    /// An issue whose goods were sold.
    OfSale,
    /// A receipt.
    OfReceipt,
}

/// A line of an earlier voucher that a voucher names, and the kind of voucher that it has to be of.
#[derive(Clone, Copy, Debug, PartialEq, Eq)]
pub struct NamedTarget {
    pub kind: TargetKind,
    pub target: Target,
}
