//! A list that takes no memory: contracts see what was noted, and nothing of it is kept when the program runs.
ghost use Rattle.std.specs.Prelude.{◌≡◌, [], ◌∷◌, ◌++◌};
ghost use Rattle.shared_listener.specs.Logs.{notes};

use std::mem;
use std::snapshot::Snapshot;

/// What was noted, the last note outermost.
#[derive(Drop)]
pub enum Log<X> {
    /// Nothing yet.
    Empty,
    /// One note more.
    More(Snapshot<Log<X>>, X),
}

impl<X> Log<X> {
    /// A log with nothing in it.
    pub fn none() -> Snapshot<Log<X>>
        ensures { notes result.value ≡ [] }
    {
        Snapshot::of(&Log::Empty)
    }
}

/// Notes one thing more.
pub fn note<X: Drop>(log: &mut Snapshot<Log<X>>, x: X)
    ensures { notes log.new.value ≡ notes log.old.value ++ x ∷ [] }
{
    let before = mem::replace(log, Snapshot::of(&Log::Empty));
    let more = Log::More(before, x);
    *log = Snapshot::of(&more);
}
