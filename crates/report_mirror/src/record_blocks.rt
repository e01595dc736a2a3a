//! Records in blocks that several lists share.
ghost use Rattle.std.specs.Prelude.{◌≡◌, ◌≤◌, ◌↔◌, ◌++◌, [], length, IsTrue, IfOk, OnOk};
ghost use Rattle.std.specs.List.{flat_map};

use crate::record_walk::RecordWalk;
use shared_list::list::SharedList;
use std::alloc::Global;
use std::marker::Model;
use stock_model::records::Record;
use stock_nums::lines::Lines;
use stock_nums::memory::NoMemory;

/// Records that are never changed. A longer list shares blocks with a shorter one, so that it copies few records besides those that are
/// new. Contracts see the records.
#[derive(Drop)]
pub struct RecordBlocks {
    blocks: Lines<SharedList<Record>>,
}

impl Model for RecordBlocks {
    ghost use Rattle.std.specs.Prelude.{List};
    ghost use Rattle.std.specs.List.{flat_map};
    ghost use Rattle.stock_model.specs.declared.records.Record.{Record};

    ghost Value = { List Record };

    ghost view = { λ list. flat_map (λ block. block) list.blocks };
}

impl RecordBlocks {
    /// No records. It takes no memory.
    pub fn new(alloc: Global) -> RecordBlocks
        ensures { result ≡ [] }
    {
        RecordBlocks {
            blocks: Lines::new(alloc),
        }
    }

    /// These records and copies of more. Blocks at the end that are together no longer than what comes make one with it: so a list of n
    /// records has some log n blocks, and each record is copied some log n times. The only error is want of memory.
    pub fn longer(&self, alloc: Global, more: &[Record]) -> Result<RecordBlocks, NoMemory>
        ensures { IfOk result (λ list. list ≡ self.now ++ more.now) }
    {
        let all = self.blocks.as_slice();
        let (kept, joined) = all.split_at(blocks_kept(all, more.len()));
        let mut blocks = shares_of(alloc, kept)?;
        let mut last = copies_of(alloc, joined)?;
        push_copies(alloc, &mut last, more)?;
        blocks.push(SharedList::of(alloc, last)?)?;
        Ok(RecordBlocks { blocks })
    }

    /// Whether both are the same records, in whatever blocks they stand. It goes over each of them once, and takes no memory.
    pub fn is_same(&self, other: &RecordBlocks) -> bool
        ensures { IsTrue result ↔ (self.now ≡ other.now) }
    {
        match RecordWalk::over(other.blocks.as_slice()).behind_blocks(self.blocks.as_slice()) {
            Some(behind) => behind.is_at_end(),
            None => false,
        }
    }
}

// How many blocks at the front stay: those behind are together no longer than what comes.
fn blocks_kept(blocks: &[SharedList<Record>], more: usize) -> usize
    ensures { result ≤ length blocks.now }
{
    match blocks.split_last() {
        Some((last, front)) if last.len() <= more => {
            blocks_kept(front, more.saturating_add(last.len()))
        }
        _ => blocks.len(),
    }
}

// The same blocks once more, of which none is copied. The only error is that 2^63 hold one already.
fn shares_of(
    alloc: Global,
    blocks: &[SharedList<Record>],
) -> Result<Lines<SharedList<Record>>, NoMemory>
    ensures { IfOk result (λ shares. shares ≡ blocks.now) }
{
    let mut shares = Lines::new(alloc);
    for block in blocks {
        shares.push(block.share()?)?;
    }
    Ok(shares)
}

// Copies of the records in the blocks. The only error is want of memory.
fn copies_of(alloc: Global, blocks: &[SharedList<Record>]) -> Result<Lines<Record>, NoMemory>
    ensures { IfOk result (λ records. records ≡ flat_map (λ block. block) blocks.now) }
{
    let mut records = Lines::new(alloc);
    for block in blocks {
        push_copies(alloc, &mut records, block.as_slice())?;
    }
    Ok(records)
}

// Adds copies of more at the end.
fn push_copies(alloc: Global, records: &mut Lines<Record>, more: &[Record]) -> Result<(), NoMemory>
    ensures { OnOk result (records.new ≡ records.old ++ more.now) }
{
    for record in more {
        records.push(record.copy(alloc)?)?;
    }
    Ok(())
}
