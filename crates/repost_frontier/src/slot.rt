//! A movement, and what was last found of it.
ghost use Rattle.std.specs.Prelude.{◌≡◌};
ghost use Rattle.repost_frontier.specs.Slots.{new_slot, marked, with_found, as_published};

use cost_links::values::Valued;
use stock_nums::entry::Entry;

/// A movement, and what was last found of it.
#[derive(Clone, Copy, Debug, PartialEq, Eq)]
pub struct Slot {
    pub entry: Entry,
    /// What it is worth and what is held after it, as last valued: None where it was never valued.
    pub found: Option<Valued>,
    /// Its value may have to change.
    pub is_suspect: bool,
    /// It was valued since the last publication.
    pub is_revalued: bool,
}

impl Slot {
    /// A movement that was never valued.
    pub(crate) fn new(entry: Entry) -> Slot
        ensures { result ≡ new_slot entry }
    {
        Slot {
            entry,
            found: None,
            is_suspect: true,
            is_revalued: false,
        }
    }

    /// The movement as one whose value may have to change.
    pub(crate) fn marked(self) -> Slot
        ensures { result ≡ marked self }
    {
        Slot {
            is_suspect: true,
            ..self
        }
    }

    /// The movement as it was just valued.
    pub(crate) fn with_found(self, found: Valued) -> Slot
        ensures { result ≡ with_found found self }
    {
        Slot {
            entry: self.entry,
            found: Some(found),
            is_suspect: false,
            is_revalued: true,
        }
    }

    /// The movement as one that was not valued since a publication.
    pub(crate) fn as_published(self) -> Slot
        ensures { result ≡ as_published self }
    {
        Slot {
            is_revalued: false,
            ..self
        }
    }
}
