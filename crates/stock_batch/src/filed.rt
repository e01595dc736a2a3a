//! A batch over a ledger that is kept.
ghost use Rattle.std.specs.Prelude.{◌<◌, length};
ghost use Rattle.stock_keeper.specs.Keeping.{Within, AsksAtMost};
ghost use Rattle.stock_batch.specs.Filed.{RunsOverShelf, RunsOverKeeper};

use crate::batch::Batch;
use crate::running::{BUFFER, pump};
use repost_worker::opening::NotOpened;
use repost_worker::revalued_book::RevaluedBook;
use std::alloc::Global;
use stock_ends::end::End;
use stock_ends::opening::{end_of, keeper_of};
use stock_io::sink::Sink;
use stock_io::source::Source;
use stock_keeper::fault::KeepFault;
use stock_keeper::keeper::Keeper;
use stock_keeper::shelf::Shelf;

/// How a batch over a keeper ended, and the keeper.
struct Ended<K> {
    end: End,
    keeper: K,
}

/// Answers the lines of the input on the output, over the ledger that the shelf has at this path. Each keeper that is handed out
/// is put back.
pub fn run_over<H: Shelf, S: Source, O: Sink>(
    alloc: Global,
    shelf: &mut H,
    path: &str,
    input: &mut S,
    output: &mut O,
) -> End
    ensures runs { RunsOverShelf H.Kept.tells H.tells H.plan H.faults H.kept_faults S.left S.taken S.faults O.written O.faults
        shelf.old shelf.new input.old input.new output.old output.new result }

    // None is opened where memory is wanting before.
    ensures opens { AsksAtMost H.opened H.openings path.now shelf.old shelf.new }
{
    let Ok(mut buffer) = vec![in alloc; 0; BUFFER] else {
        return End::NoMemory;
    };
    let keeper = match shelf.open_keeper(path) {
        Ok(keeper) => keeper,
        Err(KeepFault::Failed) => return End::StoreFailed,
        Err(KeepFault::NoMemory) => return End::NoMemory,
    };
    let Ended { end, keeper } = run_kept(alloc, keeper, buffer.as_mut_slice(), input, output);
    shelf.put_back(keeper);
    end
}

// Answers the lines of the input on the output, over the ledger that the keeper keeps.
fn run_kept<K: Keeper, S: Source, O: Sink>(
    alloc: Global,
    keeper: K,
    buffer: &mut [u8],
    input: &mut S,
    output: &mut O,
) -> Ended<K>
    requires room { 0 < length buffer.old }
    requires settled { Within (K.tells keeper) (K.may_leave keeper) }
    ensures { RunsOverKeeper K.tells K.may_leave K.faults K.plan K.calls S.left S.taken S.faults O.written O.faults
        keeper result.keeper input.old input.new output.old output.new result.end }
{
    match RevaluedBook::begin(alloc, keeper) {
        Ok(book) => {
            let mut batch = Batch::new(alloc, book);
            let end = pump(alloc, &mut batch, buffer, input, output);
            Ended {
                end,
                keeper: keeper_of(batch.into_book()),
            }
        }
        Err(NotOpened { fault, keeper }) => Ended {
            end: end_of(fault),
            keeper,
        },
    }
}
