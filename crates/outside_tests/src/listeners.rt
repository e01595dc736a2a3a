//! The doubles of links and listeners fail as planned.
ghost use Rattle.std.specs.Prelude.{All, IfOk};
ghost use Rattle.stock_io.specs.Listeners.{IsNewPeer};

use crate::lists::lines_of;
use crate::streams::{Read, next_read, writes};
use std::alloc::Global;
use stock_io::failed::Failed;
use stock_io::link::Link;
use stock_io::listener::Listener;
use stock_io::memory_link::MemLink;
use stock_io::memory_listener::MemListener;
use stock_nums::lines::Lines;
use stock_nums::memory::NoMemory;

// A link whose second read and first write fail.
fn failing_link(alloc: Global) -> Result<MemLink, NoMemory> {
    let bytes = lines_of(alloc, b"abcde")?;
    let failing_reads = lines_of(alloc, &[2u64])?;
    let failing_writes = lines_of(alloc, &[1u64])?;
    MemLink::new(alloc, bytes, 3, 4, failing_reads, failing_writes)
}

// What a read gives, a write that fails, a read that fails, the write again, and a last read.
fn talk<L: Link>(link: &mut L) -> (Read, bool, Read, bool, Read) {
    (
        next_read(link),
        writes(link, b"xy"),
        next_read(link),
        writes(link, b"xy"),
        next_read(link),
    )
}

fn end<L: Link>(link: &mut L) {
    link.end();
}

// Whether this was written to the peer, and what was counted, and whether the link was ended.
fn has(link: &MemLink, written: &[u8], told: (u64, u64, bool)) -> bool {
    link.written() == written && (link.taken(), link.faults(), link.is_ended()) == told
}

#[test]
fn a_link_in_memory_fails_as_planned(rt: HostRuntime) {
    let Ok(mut link) = failing_link(rt.alloc()) else {
        panic!(rt; "no memory")
    };
    let told = (Ok((3, b'a')), false, Err(Failed), true, Ok((2, b'd')));
    assert!(rt; talk(&mut link) == told);
    assert!(rt; has(&link, b"xy", (5, 2, false)));
    end(&mut link);
    assert!(rt; has(&link, b"xy", (5, 2, true)));
}

fn peer_of(alloc: Global, bytes: &[u8]) -> Result<MemLink, NoMemory>
    ensures { IfOk result IsNewPeer }
{
    let bytes = lines_of(alloc, bytes)?;
    MemLink::new(alloc, bytes, 8, 8, Lines::new(alloc), Lines::new(alloc))
}

// Two peers that send these bytes.
fn two_peers(alloc: Global, first: &[u8], second: &[u8]) -> Result<Vec<MemLink>, NoMemory>
    ensures { IfOk result (λ peers. All IsNewPeer peers.items) }
{
    let mut peers = Vec::new(alloc);
    peers.push(peer_of(alloc, first)?)?;
    peers.push(peer_of(alloc, second)?)?;
    Ok(peers)
}

// A listener to which two peers come, and whose third call fails.
fn failing_listener(alloc: Global) -> Result<MemListener, NoMemory> {
    let peers = two_peers(alloc, b"abc", b"d")?;
    let failing = lines_of(alloc, &[3u64])?;
    MemListener::new(alloc, peers, failing)
}

// Reads from the next peer, and hangs it up.
fn next_peer<L: Listener>(listener: &mut L) -> Read {
    let mut peer = listener.accept()?;
    let read = next_read(&mut peer);
    peer.end();
    listener.hang_up(peer);
    read
}

fn listens<L: Listener>(listener: &mut L) -> bool {
    listener.listen(8080, None).is_ok()
}

// How many peers were hung up, and how many calls failed.
fn counts(listener: &MemListener) -> (usize, u64) {
    (listener.hung_up().len(), listener.faults())
}

#[test]
fn a_listener_in_memory_hands_its_peers_out_in_order(rt: HostRuntime) {
    let Ok(mut listener) = failing_listener(rt.alloc()) else {
        panic!(rt; "no memory")
    };
    assert!(rt; listens(&mut listener));
    for read in [Ok((3, b'a')), Err(Failed), Ok((1, b'd')), Err(Failed)] {
        assert!(rt; next_peer(&mut listener) == read);
    }
    assert!(rt; counts(&listener) == (2, 2));
}
