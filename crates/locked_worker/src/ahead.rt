//! What a worker makes before it takes the lock.
ghost use Rattle.std.specs.Prelude.{List};
ghost use Rattle.stock_model.specs.PostingOrder.{posting_line};
ghost use Rattle.stock_model.specs.declared.records.Record.{Record};
ghost use Rattle.repost_laws.specs.Builds.{IsClean};
ghost use Rattle.repost_build.specs.Builds.{IsOf};
ghost use Rattle.repost_build.specs.Readings.{suspects_in};
ghost use Rattle.locked_worker.specs.Stopped.{IsAheadOf};

use repost_build::build::Build;
use repost_worker::publication::Publication;
use shared_list::blocks::SharedBlocks;
use std::alloc::Global;
use stock_nums::entry::Row;

/// What a stop publishes where nothing is to be fetched there. It is made from the build alone, while others have the book.
#[derive(Drop)]
pub(crate) enum Ahead {
    /// Nothing: all is published that the build is of.
    Nothing,
    /// All that the build is of.
    Ready(Publication),
    /// Memory was wanting.
    Wanting,
}

impl Ahead {
    /// What a stop publishes of the build, which has no suspect.
    pub(crate) fn of(alloc: Global, build: &Build) -> Ahead
        ghost journal: { List Record }
        requires of { IsOf journal build.now }
        requires clean { IsClean (posting_line journal) (suspects_in build.now) }
        ensures { IsAheadOf journal build.now result }
    {
        if build.target().0 <= build.base().0 {
            return Ahead::Nothing;
        }
        match Publication::of(alloc, build) {
            Ok(ready) => Ahead::Ready(ready),
            Err(_) => Ahead::Wanting,
        }
    }

    /// The rows that were made, or no rows where none were.
    pub(crate) fn into_rows(self) -> SharedBlocks<Row> {
        match self {
            Ahead::Ready(ready) => ready.rows,
            Ahead::Nothing | Ahead::Wanting => SharedBlocks::new(),
        }
    }
}
