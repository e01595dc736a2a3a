//! A walk over records that stand in blocks.
ghost use Rattle.std.specs.Prelude.{◌≡◌, ◌≢◌, ◌↔◌, List, [], ◌∷◌, ◌++◌, IsTrue, MatchOption};
ghost use Rattle.std.specs.List.{flat_map};
ghost use Rattle.stock_model.specs.declared.records.Record.{Record};

use record_equality::records::is_same;
use shared_list::list::SharedList;
use std::marker::Model;
use stock_model::records::Record;

/// A walk over records, from the first to the last. Contracts see those that are still to come.
#[derive(Drop)]
pub(crate) struct RecordWalk<'a> {
    block: &'a [Record],
    blocks: &'a [SharedList<Record>],
}

impl<'a> Model for RecordWalk<'a> {
    ghost use Rattle.std.specs.Prelude.{List, ◌++◌};
    ghost use Rattle.std.specs.List.{flat_map};
    ghost use Rattle.stock_model.specs.declared.records.Record.{Record};

    ghost Value = { List Record };

    ghost view = { λ walk. walk.block.now ++ flat_map (λ block. block) walk.blocks.now };
}

impl<'a> RecordWalk<'a> {
    /// A walk over the records of these blocks.
    pub(crate) fn over(blocks: &'a [SharedList<Record>]) -> RecordWalk<'a>
        ensures { result ≡ flat_map (λ block. block) blocks.now }
    {
        RecordWalk { block: &[], blocks }
    }

    /// The walk behind the records of these blocks. None exactly where it does not begin with them.
    pub(crate) fn behind_blocks(self, blocks: &[SharedList<Record>]) -> Option<RecordWalk<'a>>
        ensures { MatchOption result
            ((rest : List Record) → self.entry ≢ flat_map (λ block. block) blocks.now ++ rest)
            (λ behind. self.entry ≡ flat_map (λ block. block) blocks.now ++ behind) }
    {
        let mut walk = self;
        for block in blocks {
            let Some(behind) = walk.behind(block.as_slice()) else {
                return None;
            };
            walk = behind;
        }
        Some(walk)
    }

    /// Whether no record is to come.
    pub(crate) fn is_at_end(&self) -> bool
        ensures { IsTrue result ↔ (self.now ≡ []) }
    {
        self.next().is_none()
    }

    // The walk behind these records. None exactly where it does not begin with them.
    fn behind(self, records: &[Record]) -> Option<RecordWalk<'a>>
        ensures { MatchOption result
            ((rest : List Record) → self.entry ≢ records.now ++ rest)
            (λ behind. self.entry ≡ records.now ++ behind) }
    {
        let mut walk = self;
        for record in records {
            let Some((next, behind)) = walk.next() else {
                return None;
            };
            if !is_same(record, next) {
                return None;
            }
            walk = behind;
        }
        Some(walk)
    }

    // The next record, and the walk behind it. None exactly where none is to come.
    fn next(&self) -> Option<(&'a Record, RecordWalk<'a>)>
        ensures { MatchOption result (self.now ≡ []) (λ found. self.now ≡ found.0.now ∷ found.1) }
    {
        first_of(self.block, self.blocks)
    }
}

// The first record of a block and of those behind it, and the walk behind that one. None exactly where there is none.
fn first_of<'a>(
    block: &'a [Record],
    blocks: &'a [SharedList<Record>],
) -> Option<(&'a Record, RecordWalk<'a>)>
    ensures { MatchOption result
        (block.now ++ flat_map (λ block. block) blocks.now ≡ [])
        (λ found. block.now ++ flat_map (λ block. block) blocks.now ≡ found.0.now ∷ found.1) }
{
    if let Some((first, block)) = block.split_first() {
        return Some((first, RecordWalk { block, blocks }));
    }
    match blocks.split_first() {
        Some((block, blocks)) => first_of(block.as_slice(), blocks),
        None => None,
    }
}
