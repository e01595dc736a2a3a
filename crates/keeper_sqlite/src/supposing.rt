//! What is supposed of a file as it is opened.
ghost use Rattle.std.specs.Prelude.{[], true};

use sqlite::Start;

/// For `main` to name: no code can read what a file holds before it opens it, so what is proved of all contents is used at this one.
/// It supposes that a torn write leaves each byte old or new, so most commits sync once, as under SQLite's `synchronous=FULL`.
#[derive(Clone, Copy)]
pub struct AnyFile;

impl Start for AnyFile {
    ghost log = { [] };

    ghost db = { [] };

    ghost is_mixing = { true };

    fn mixes() -> bool {
        true
    }
}
