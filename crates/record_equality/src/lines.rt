//! Whether lines of vouchers are equal.
ghost use Rattle.std.specs.Prelude.{◌≡◌, ◌↔◌, IsTrue};

use crate::parts::is_same_code;
use stock_model::vouchers::{IssueLine, ReceiptLine, ReturnLine, TransferLine};
use stock_nums::cause::Target;

/// A line of which is told whether it equals another one.
pub(crate) trait ComparedLine {
    /// Whether the two are equal.
    fn is_same(&self, other: &Self) -> bool
        ensures { IsTrue result ↔ (self.now ≡ other.now) };
}

impl ComparedLine for ReceiptLine {
    #[tactic(auto, using(crate::proofs::SameParts::receipt_line_same))]
    fn is_same(&self, other: &ReceiptLine) -> bool {
        is_same_code(&self.item, &other.item)
            && is_same_code(&self.store, &other.store)
            && self.qty == other.qty
            && self.amount == other.amount
    }
}

impl ComparedLine for IssueLine {
    #[tactic(auto, using(crate::proofs::SameParts::issue_line_same))]
    fn is_same(&self, other: &IssueLine) -> bool {
        is_same_code(&self.item, &other.item)
            && is_same_code(&self.store, &other.store)
            && self.qty == other.qty
    }
}

impl ComparedLine for TransferLine {
    #[tactic(auto, using(crate::proofs::SameParts::transfer_line_same))]
    fn is_same(&self, other: &TransferLine) -> bool {
        is_same_code(&self.item, &other.item)
            && is_same_code(&self.from, &other.from)
            && is_same_code(&self.to, &other.to)
            && self.qty == other.qty
    }
}

impl ComparedLine for ReturnLine {
    #[tactic(auto, using(crate::proofs::SameParts::return_line_same))]
    fn is_same(&self, other: &ReturnLine) -> bool {
        self.target == other.target
            && is_same_code(&self.store, &other.store)
            && self.qty == other.qty
    }
}

impl ComparedLine for Target {
    fn is_same(&self, other: &Target) -> bool {
        self == other
    }
}

/// Whether the lines are equal, one by one.
pub(crate) fn are_same<T: ComparedLine>(one: &[T], other: &[T]) -> bool
    ensures { IsTrue result ↔ (one.now ≡ other.now) }
{
    if one.len() != other.len() {
        return false;
    }
    for (index, line) in one.iter().enumerate() {
        if !line.is_same(&other[index]) {
            return false;
        }
    }
    true
}
