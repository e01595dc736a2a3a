//! The doubles of sources and sinks fail as planned, and the standard streams answer.

use crate::lists::lines_of;
use std::alloc::Global;
use stock_io::failed::Failed;
use stock_io::memory_sink::MemSink;
use stock_io::memory_source::MemSource;
use stock_io::sink::{Sink, write_all};
use stock_io::source::Source;
use stock_io::standard::{StdSink, StdSource};
use stock_io::sure::{SureSink, SureSource};
use stock_nums::memory::NoMemory;

/// What a read of at most four bytes gives: their number and the first, or that it failed.
pub type Read = Result<(usize, u8), Failed>;

/// The next read of at most four bytes.
pub fn next_read<S: Source>(source: &mut S) -> Read {
    let mut buf = [0u8; 4];
    let n = source.read(&mut buf)?;
    Ok((n, buf[0]))
}

/// Whether all of the bytes are written.
pub fn writes<W: Sink>(sink: &mut W, bytes: &[u8]) -> bool {
    write_all(sink, bytes).is_ok()
}

// Whether the next reads are these.
fn reads_as<S: Source>(source: &mut S, reads: &[Read]) -> bool {
    for read in reads {
        if next_read(source) != *read {
            return false;
        }
    }
    true
}

// A source of five bytes, three in a read, of which the second read fails.
fn failing_source(alloc: Global) -> Result<MemSource, NoMemory> {
    let bytes = lines_of(alloc, b"abcde")?;
    let failing = lines_of(alloc, &[2u64])?;
    Ok(MemSource::new(bytes, 3, failing))
}

// How many bytes were taken, and how many reads failed.
fn counts(source: &MemSource) -> (u64, u64) {
    (source.taken(), source.faults())
}

#[test]
fn a_source_in_memory_gives_pieces_and_fails_as_planned(rt: HostRuntime) {
    let Ok(mut source) = failing_source(rt.alloc()) else {
        panic!(rt; "no memory")
    };
    let reads = [Ok((3, b'a')), Err(Failed), Ok((2, b'd')), Ok((0, 0))];
    assert!(rt; reads_as(&mut source, &reads));
    assert!(rt; counts(&source) == (5, 1));
}

#[test]
fn a_sure_source_gives_pieces(rt: HostRuntime) {
    let Ok(bytes) = lines_of(rt.alloc(), b"abcdef") else {
        panic!(rt; "no memory")
    };
    let mut source = SureSource::new(bytes, 5);
    assert!(rt; reads_as(&mut source, &[Ok((4, b'a')), Ok((2, b'e'))]));
    assert!(rt; source.taken() == 6);
}

// A sink with room for five bytes, of which the second write fails.
fn failing_sink(alloc: Global) -> Result<MemSink, NoMemory> {
    MemSink::new(alloc, 5, lines_of(alloc, &[2u64])?)
}

// Whether the sink has these bytes and had so many faults.
fn has(sink: &MemSink, bytes: &[u8], faults: u64) -> bool {
    sink.bytes() == bytes && sink.faults() == faults
}

#[test]
fn a_sink_in_memory_fails_as_planned_and_when_full(rt: HostRuntime) {
    let Ok(mut sink) = failing_sink(rt.alloc()) else {
        panic!(rt; "no memory")
    };
    let cases: [(&[u8], bool); 3] = [(b"abc", true), (b"de", false), (b"fgh", false)];
    for (bytes, are_written) in cases {
        assert!(rt; writes(&mut sink, bytes) == are_written);
    }
    assert!(rt; has(&sink, b"abcfg", 2));
}

#[test]
fn standard_output_is_written_to(rt: HostRuntime) {
    let mut output = StdSink::output(rt);
    assert!(rt; writes(&mut output, b"to standard output\n"));
    assert!(rt; output.faults() == 0);
}

#[test]
fn standard_error_is_written_to(rt: HostRuntime) {
    let mut notes = StdSink::notes(rt.stderr());
    assert!(rt; writes(&mut notes, b"to standard error\n"));
    assert!(rt; notes.faults() == 0);
}

#[test]
fn a_sure_sink_takes_all(rt: HostRuntime) {
    assert!(rt; writes(&mut SureSink::new(), b"nowhere"));
}

#[test]
fn standard_input_is_read(rt: HostRuntime) {
    let mut input = StdSource::new(&rt);
    let failed = next_read(&mut input).is_err();
    assert!(rt; input.faults() == u64::from(failed));
    assert!(rt; input.taken() <= 4);
}
