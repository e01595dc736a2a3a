//! Runs of the program over memory. Here alone the top call is made, without clauses, so that its contract is met once for all
//! tests.
ghost use Rattle.std.specs.Prelude.{◌<◌, All};
ghost use Rattle.stock_io.specs.Listeners.{IsNewPeer};

use std::alloc::Global;
use std::sync::Wait;
use std::thread::Threads;
use stock_cli::top;
use stock_cli::top::Finished;
use stock_io::link::Link;
use stock_io::listener::Listener;
use stock_io::memory_link::MemLink;
use stock_io::memory_listener::MemListener;
use stock_io::memory_sink::MemSink;
use stock_io::memory_source::MemSource;
use stock_io::sink::Sink;
use stock_io::source::Source;
use stock_keeper::memory_keeper::MemKeeper;
use stock_keeper::memory_shelf::MemShelf;
use stock_keeper::shelf::Shelf;
use stock_keeper::tables::{Tables, VERSION};
use stock_nums::lines::Lines;
use stock_nums::memory::NoMemory;

/// The most bytes that a test writes.
const ROOM: usize = 2000;

/// Which call of each stream fails, from 1, or none.
#[derive(Clone, Copy)]
pub struct Failing {
    pub read: Option<u64>,
    pub write: Option<u64>,
    pub note: Option<u64>,
}

/// Streams that never fail.
pub const NEVER: Failing = Failing {
    read: None,
    write: None,
    note: None,
};

/// How a run ended, what it wrote, and its listener.
#[derive(Drop)]
pub struct Ended {
    pub status: u8,
    pub output: MemSink,
    pub notes: MemSink,
    pub listener: MemListener,
}

fn calls(alloc: Global, failing: Option<u64>) -> Result<Lines<u64>, NoMemory> {
    let mut calls = Lines::new(alloc);
    if let Some(number) = failing {
        calls.push(number)?;
    }
    Ok(calls)
}

/// A shelf with a new keeper, of whose calls that with this number fails, from 1, or none.
pub fn shelf(alloc: Global, failing: Option<u64>) -> Result<MemShelf, NoMemory> {
    shelf_of(alloc, VERSION, failing)
}

/// The same with empty tables of this version.
pub fn shelf_of(alloc: Global, version: i64, failing: Option<u64>) -> Result<MemShelf, NoMemory> {
    let tables = Tables {
        version,
        records: Lines::new(alloc),
        covered: 0,
        worths: Lines::new(alloc),
    };
    let keeper = MemKeeper::of(alloc, tables, calls(alloc, failing)?);
    Ok(MemShelf::new(keeper, Lines::new(alloc)))
}

/// The texts, one after another.
pub fn joined(alloc: Global, texts: &[&str]) -> Result<Vec<u8>, NoMemory> {
    let mut bytes = Vec::new(alloc);
    for text in texts {
        bytes.extend_from_slice(text.as_bytes())?;
    }
    Ok(bytes)
}

/// Runs the program with these words over the shelf, and over an input that is read in pieces of so many bytes. Nobody is there to
/// be served.
pub fn run(
    rt: &(impl Threads + Wait + Sync),
    alloc: Global,
    words: &[&str],
    shelf: &mut MemShelf,
    input: Vec<u8>,
    piece: usize,
    failing: Failing,
) -> Result<Ended, NoMemory>
    requires { 0 < piece }
{
    let input = MemSource::new(Lines::from_vec(input), piece, calls(alloc, failing.read)?);
    run_over(
        rt,
        alloc,
        words,
        shelf,
        Vec::new(alloc),
        None,
        input,
        failing,
    )
}

/// Runs the program with these words over the shelf, with no input, for these peers. The call of the listener with this number
/// fails, from 1, or none.
pub fn serve(
    rt: &(impl Threads + Wait + Sync),
    alloc: Global,
    words: &[&str],
    shelf: &mut MemShelf,
    peers: Vec<MemLink>,
    listener: Option<u64>,
    failing: Failing,
) -> Result<Ended, NoMemory>
    requires { All IsNewPeer peers.items }
{
    let input = MemSource::new(Lines::new(alloc), 1, Lines::new(alloc));
    run_over(rt, alloc, words, shelf, peers, listener, input, failing)
}

fn run_over(
    rt: &(impl Threads + Wait + Sync),
    alloc: Global,
    words: &[&str],
    shelf: &mut MemShelf,
    peers: Vec<MemLink>,
    listener: Option<u64>,
    mut input: MemSource,
    failing: Failing,
) -> Result<Ended, NoMemory>
    requires { All IsNewPeer peers.items }
{
    let mut owned = Vec::new(alloc);
    for word in words {
        owned.push(word.to_string(alloc)?)?;
    }
    let listener = MemListener::new(alloc, peers, calls(alloc, listener)?)?;
    let mut output = MemSink::new(alloc, ROOM, calls(alloc, failing.write)?)?;
    let mut notes = MemSink::new(alloc, ROOM, calls(alloc, failing.note)?)?;
    let Finished { status, listener } = call(
        rt,
        alloc,
        owned.as_slice(),
        shelf,
        listener,
        &mut input,
        &mut output,
        &mut notes,
    );
    Ok(Ended {
        status,
        output,
        notes,
        listener,
    })
}

// The top call over streams of any types, so that its contract is not worked out over those of the tests.
fn call<
    H: Shelf,
    P: Link,
    L: Listener<Peer = P> + Send + Drop,
    S: Source,
    O: Sink,
    N: Sink,
    R: Threads + Wait + Sync,
>(
    rt: &R,
    alloc: Global,
    words: &[String],
    shelf: &mut H,
    listener: L,
    input: &mut S,
    output: &mut O,
    notes: &mut N,
) -> Finished<L> {
    top::stockd(rt, alloc, words, shelf, listener, input, output, notes)
}
