//! The path at which a shelf was asked for a keeper. Contracts alone see it.
ghost use Rattle.std.specs.Prelude.{◌≡◌};

use boxcar::tag::{Names, Tag};
use std::marker::Model;

/// The bytes of a path, as contracts see them. It has none itself and takes no memory.
#[derive(Drop)]
pub struct OpenedPath {
    told: Tag,
}

impl Model for OpenedPath {
    ghost use Rattle.std.specs.Prelude.{ℕ, List};

    ghost Value = { List ℕ };

    ghost view = { λ path. path.told.numbers };
}

// What is told of a path: its bytes.
struct Bytes;

impl<'a> Names<&'a str> for Bytes {
    ghost numbers = { λ path. path.now };
}

impl OpenedPath {
    /// This path.
    pub fn of(path: &str) -> OpenedPath
        ensures { result ≡ path.now }
    {
        OpenedPath {
            told: Tag::of::<&str, Bytes>(&path),
        }
    }
}
