//! `stockd`: a stock ledger. `stockd batch` answers the lines of standard input on standard output, with `--file P` over the ledger
//! that is kept in the file P. `stockd import` posts the vouchers of a sheet into it. `stockd serve` answers requests over HTTP.
#![tactic(auto)]

use keeper_sqlite::sqlite_shelf::SqliteShelf;
use keeper_sqlite::supposing::AnyFile;
use sqlite::Start;
use std::alloc::Global;
use std::env::Env;
use std::net::{Net, TcpListener, TcpStream};
use std::process::ExitCode;
use std::sync::Wait;
use std::thread::Threads;
use std::{env, io};
use stock_cli::top;
use stock_ends::notes::without_memory;
use stock_io::net_listener::NetListener;
use stock_io::sink::Sink;
use stock_io::source::Source;
use stock_io::standard::{StdSink, StdSource};

/// The words after the program's name.
fn words_of(rt: &(impl Env + AllocGlobal)) -> io::Result<Vec<String>> {
    let mut words = Vec::new(rt.alloc());
    for word in env::args(rt)?.skip(1) {
        words.push(word)?;
    }
    Ok(words)
}

/// Does what the words ask for over the files and a listener of the system, and answers the status.
fn run<
    B: Start + Copy + Send,
    P: Net<Listener = TcpListener, Stream = TcpStream> + Drop + Send,
    S: Source,
    O: Sink,
    N: Sink,
    R: Threads + Wait + Sync,
>(
    rt: &R,
    alloc: Global,
    words: &[String],
    shelf: &mut SqliteShelf<B>,
    listener: NetListener<P>,
    input: &mut S,
    output: &mut O,
    notes: &mut N,
) -> u8 {
    top::stockd(rt, alloc, words, shelf, listener, input, output, notes).status
}

fn main(rt: HostRuntime) -> ExitCode {
    let alloc = rt.alloc();
    let mut input = StdSource::new(&rt);
    let mut notes = StdSink::notes(rt.stderr());
    let words = match words_of(&rt) {
        Ok(words) => words,
        Err(error) if error.kind() == io::ErrorKind::OutOfMemory => {
            return ExitCode::from(without_memory(&mut notes));
        }
        // Words that are no text are no form of words.
        Err(_) => Vec::new(alloc),
    };
    let mut shelf = SqliteShelf::new(&rt, AnyFile);
    let mut output = StdSink::output(rt);
    let status = run(
        &rt,
        alloc,
        words.as_slice(),
        &mut shelf,
        NetListener::new(rt),
        &mut input,
        &mut output,
        &mut notes,
    );
    ExitCode::from(status)
}
