//! What was tried of a book and refused. Contracts alone see it: it has no bytes, and nothing is done when the program runs.
ghost use Rattle.std.specs.Prelude.{◌≡◌, List, [], ◌∷◌, ◌++◌};
ghost use Rattle.std.specs.Borrow.{ftrue};
ghost use Rattle.stock_model.specs.declared.deeds.Deed.{Deed};
ghost use Rattle.stock_model.specs.declared.deeds.Deed.TheVariants as deed;

use std::marker::Model;
use stock_model::records::Record;
use stock_nums::numbers::RecordNo;

/// The events for which a call of the keeper was refused since it last did what it was asked for, in their order.
#[derive(Drop)]
pub(crate) struct Tried {
    pub(crate) ghost events: { List Deed },
}

impl Model for Tried {
    ghost also_owns = { λ _. ftrue };
}

// It owns nothing.
unsafe impl Send for Tried {}

impl Tried {
    /// Nothing was tried.
    pub(crate) fn new() -> Tried
        ensures { result.events ≡ [] }
    {
        Tried::of()
    }

    /// These.
    pub(crate) fn of() -> Tried
        ghost events: { List Deed }
        ensures { result.events ≡ events }
    {
        Tried {}
    }

    /// These, and then the post of a record.
    pub(crate) fn with_kept(&self, _item: &Record) -> Tried
        ensures { result.events ≡ self.now.events ++ deed.Kept _item.now ∷ [] }
    {
        Tried {}
    }

    /// These, and then a publication of so many records.
    pub(crate) fn with_published(&self, _covered: &RecordNo) -> Tried
        ensures { result.events ≡ self.now.events ++ deed.Published _covered.now ∷ [] }
    {
        Tried {}
    }
}
