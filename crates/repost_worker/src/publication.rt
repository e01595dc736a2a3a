//! What a publication of a build is made from.
ghost use Rattle.std.specs.Prelude.{List, IfOk};
ghost use Rattle.stock_model.specs.PostingOrder.{posting_line};
ghost use Rattle.stock_model.specs.declared.records.Record.{Record};
ghost use Rattle.repost_laws.specs.Builds.{IsClean};
ghost use Rattle.repost_build.specs.Builds.{IsOf};
ghost use Rattle.repost_build.specs.Readings.{suspects_in};
ghost use Rattle.repost_worker.specs.Publications.{IsPublicationOf};

use repost_build::build::Build;
use shared_list::blocks::SharedBlocks;
use std::alloc::Global;
use stock_nums::entry::Row;
use stock_nums::lines::Lines;
use stock_nums::memory::NoMemory;

/// The rows of a build without a suspect. It is made from the build alone, so that no book has to be held meanwhile.
#[derive(Drop)]
pub struct Publication {
    /// All of them, in posting order: what reports are made from.
    pub rows: SharedBlocks<Row>,
    /// Those that were valued since the last publication: what a keeper is handed.
    pub changed: Lines<Row>,
}

impl Publication {
    /// What is published of the build. The only error is want of memory.
    pub fn of(alloc: Global, build: &Build) -> Result<Publication, NoMemory>
        ghost journal: { List Record }
        requires of { IsOf journal build.now }
        requires clean { IsClean (posting_line journal) (suspects_in build.now) }
        ensures { IfOk result (IsPublicationOf journal build.now) }
    {
        Ok(Publication {
            rows: build.rows(alloc)?,
            changed: build.changed(alloc)?,
        })
    }
}
