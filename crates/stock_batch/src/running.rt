//! A run over an input: the lines are answered on an output, until the input ends or the run does.
ghost use Rattle.std.specs.Prelude.{◌≡◌, ◌<◌, ◌≤◌, [], length, OnOk, IfErr};
ghost use Rattle.stock_io.specs.Counts.{NeverFalls};
ghost use Rattle.repost_worker.specs.Paces.{Pace, first_pace};
ghost use Rattle.stock_batch.specs.Batches.{StandsFor};
ghost use Rattle.stock_batch.specs.Ran.{Ran, TakesPiece, Stops, Finishes, IsOutputEnd, IsLastEnd};

use crate::batch::Batch;
use generation_book::book::Book;
use repost_worker::revalued_book::RevaluedBook;
use std::alloc::Global;
use stock_ends::end::End;
use stock_io::sink::Sink;
use stock_io::source::Source;
use stock_keeper::keeper::Keeper;

/// The most bytes of input that a run takes.
const MAX_INPUT: u64 = 1 << 32;

/// The most bytes that a read takes.
pub(crate) const BUFFER: usize = 65_536;

/// With so many records a report may be long.
const MANY_RECORDS: u32 = 100;

/// The most bytes that a read takes then, so that the replies to few lines wait at once.
const SHORT_READ: usize = 512;

/// Answers the lines of the input on the output, over a new book that is kept nowhere.
pub fn run<S: Source, O: Sink>(alloc: Global, input: &mut S, output: &mut O) -> End
    ensures { (last : Pace) × Ran S.left S.taken S.faults O.written O.faults input.old input.new output.old output.new first_pace last result }
{
    let Ok(mut buffer) = vec![in alloc; 0; BUFFER] else {
        return End::NoMemory;
    };
    let mut batch = Batch::new(alloc, RevaluedBook::start(alloc));
    pump(alloc, &mut batch, buffer.as_mut_slice(), input, output)
}

/// The most bytes that the next read takes: as many as the buffer has, and fewer once reports may be long.
fn piece_size<K: Keeper>(book: &Book<K>, buffer: usize) -> usize
    requires { 0 < buffer }
    ensures some { 0 < result }
    ensures within { result ≤ buffer }
{
    if book.accepted().0 < MANY_RECORDS {
        buffer
    } else {
        buffer.min(SHORT_READ)
    }
}

/// Takes the input in pieces. The replies to all whole lines of a piece are written before the next is read.
pub(crate) fn pump<K: Keeper, S: Source, O: Sink>(
    alloc: Global,
    batch: &mut Batch<K>,
    buffer: &mut [u8],
    input: &mut S,
    output: &mut O,
) -> End
    requires room { 0 < length buffer.old }
    requires stands { StandsFor batch.old.book batch.old [] [] }
    requires nothing_waits { batch.old.waiting.items ≡ [] }
    ensures { Ran S.left S.taken S.faults O.written O.faults input.old input.new output.old output.new batch.old.book batch.new.book result }
{
    let mut taken = 0;
    while taken < MAX_INPUT {
        let size = piece_size(batch.book.book(), buffer.len());
        let room = (size as u64).min(MAX_INPUT - taken) as usize;
        let Ok(n) = input.read(&mut buffer[..room]) else {
            return End::ReadFailed;
        };
        if n == 0 {
            return finish(alloc, batch, output);
        }
        if let Err(end) = step(alloc, batch, &buffer[..n], output) {
            return end;
        }
        taken += n as u64;
    }
    End::TooLong
}

/// Takes a piece of the input, and writes the replies to the lines that are whole now.
fn step<K: Keeper, O: Sink>(
    alloc: Global,
    batch: &mut Batch<K>,
    piece: &[u8],
    output: &mut O,
) -> Result<(), End>
    ensures takes { OnOk result (TakesPiece O.written batch.old batch.new piece.now output.old output.new) }
    ensures faults_kept { OnOk result (O.faults output.new ≡ O.faults output.old) }
    ensures stops { IfErr result (Stops O.written batch.old batch.new.book piece.now output.old output.new) }
    ensures never_falls { NeverFalls (O.faults output.old) (O.faults output.new) }
    ensures cause { IfErr result (IsOutputEnd (O.faults output.old) (O.faults output.new)) }
{
    let Ok(()) = batch.feed(alloc, piece) else {
        return Err(End::NoMemory);
    };
    let Ok(()) = batch.write_out(output) else {
        return Err(End::WriteFailed);
    };
    Ok(())
}

/// Takes the end of the input, and writes the last reply.
fn finish<K: Keeper, O: Sink>(alloc: Global, batch: &mut Batch<K>, output: &mut O) -> End
    ensures finishes { Finishes O.written batch.old batch.new.book output.old output.new result }
    ensures never_falls { NeverFalls (O.faults output.old) (O.faults output.new) }
    ensures cause { IsLastEnd (O.faults output.old) (O.faults output.new) result }
{
    let Ok(()) = batch.end_input(alloc) else {
        return End::NoMemory;
    };
    let Ok(()) = batch.write_out(output) else {
        return End::WriteFailed;
    };
    End::Done
}
