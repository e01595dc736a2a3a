//! The items and warehouses of the records that the generation covers.
ghost use Rattle.std.specs.Prelude.{◌≡◌, ◌^◌, ◌<◌, ◌≤◌, ◌++◌, length, take, IfOk, OnOk};
ghost use Rattle.stock_model.specs.Masters.{heads};

use shared_list::list::SharedList;
use std::alloc::Global;
use stock_model::masters::heads_after;
use stock_model::records::Record;
use stock_nums::head::Head;
use stock_nums::lines::Lines;
use stock_nums::memory::NoMemory;
use stock_nums::numbers::RecordNo;

/// The items and warehouses of these records, where those of the first `covered` ones are known. It goes over the later records
/// alone, and where they make none it copies none. The only error is want of memory.
pub(crate) fn covered_heads(
    alloc: Global,
    known: &SharedList<Head>,
    records: &[Record],
    covered: RecordNo,
) -> Result<SharedList<Head>, NoMemory>
    requires few { length records.now < 2 ^ 32 }
    requires within { covered.0 ≤ length records.now }
    requires known { known.now ≡ heads (take covered.0 records.now) }
    ensures { IfOk result (λ found. found ≡ heads records.now) }
{
    let made = heads_after(alloc, records, covered.0 as usize)?;
    if made.is_empty() {
        return known.share();
    }
    let mut all = Lines::new(alloc);
    push_copies(alloc, &mut all, known.as_slice())?;
    push_copies(alloc, &mut all, made.as_slice())?;
    SharedList::of(alloc, all)
}

// Adds equal heads at the end.
fn push_copies(alloc: Global, all: &mut Lines<Head>, heads: &[Head]) -> Result<(), NoMemory>
    ensures { OnOk result (all.new ≡ all.old ++ heads.now) }
{
    for head in heads {
        all.push(head.copy(alloc)?)?;
    }
    Ok(())
}
