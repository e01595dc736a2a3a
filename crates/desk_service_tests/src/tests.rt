//! Peers in memory, which desks serve at once.
ghost use Rattle.std.specs.Prelude.{All, IfOk};
ghost use Rattle.stock_io.specs.Listeners.{IsNewPeer};

use crate::served::served;
use std::alloc::Global;
use std::test::Fail;
use stock_io::memory_link::MemLink;
use stock_io::memory_listener::MemListener;
use stock_nums::lines::Lines;
use stock_nums::memory::NoMemory;
use stock_nums::numbers::RecordNo;

const POSTS_ITEM: &[u8] =
    b"POST /desk HTTP/1.1\r\nHost: x\r\nContent-Length: 41\r\n\r\n{\"do\":\"item\",\"code\":\"L1\",\"method\":\"fifo\"}";

const ASKS_FOR_BALANCE: &[u8] =
    b"POST /desk HTTP/1.1\r\nHost: x\r\nContent-Length: 30\r\n\r\n{\"do\":\"report\",\"of\":\"balance\"}";

const IS_DONE: &[u8] = b"HTTP/1.1 200 OK\r\n";

// A peer that sends this request in small pieces, and ends.
fn peer_of(alloc: Global, request: &[u8]) -> Result<MemLink, NoMemory>
    ensures { IfOk result IsNewPeer }
{
    let bytes = Lines::from_vec(request.to_vec(alloc)?);
    MemLink::new(alloc, bytes, 9, 1_000, Lines::new(alloc), Lines::new(alloc))
}

// The helpers below have no clauses that a caller doesn't want, so that a test carries none of a service's from call to call.

// Peers that send these requests, each in small pieces.
fn peers_of(alloc: Global, requests: &[&[u8]]) -> Result<Vec<MemLink>, NoMemory>
    ensures { IfOk result (λ peers. All IsNewPeer peers.items) }
{
    let mut peers = Vec::new(alloc);
    for request in requests {
        peers.push(peer_of(alloc, request)?)?;
    }
    Ok(peers)
}

// A listener to which they come.
fn listener_of(alloc: Global, requests: &[&[u8]]) -> Result<MemListener, NoMemory> {
    MemListener::new(alloc, peers_of(alloc, requests)?, Lines::new(alloc))
}

// A listener to which one peer comes that posts, and one that asks.
fn listener_of_two(alloc: Global) -> Result<MemListener, NoMemory> {
    listener_of(alloc, &[POSTS_ITEM, ASKS_FOR_BALANCE])
}

// A listener to which one peer comes that posts, and four that ask.
fn listener_of_five(alloc: Global) -> Result<MemListener, NoMemory> {
    listener_of(
        alloc,
        &[
            POSTS_ITEM,
            ASKS_FOR_BALANCE,
            ASKS_FOR_BALANCE,
            ASKS_FOR_BALANCE,
            ASKS_FOR_BALANCE,
        ],
    )
}

// Whether all of the request was taken, the request was done, and the connection was ended.
fn is_answered(peer: &MemLink, request: &[u8]) -> bool {
    peer.taken() == request.len() as u64 && peer.written().starts_with(IS_DONE) && peer.is_ended()
}

// Whether that is so of one that posts and one that asks, in whichever order they were hung up.
fn are_answered(listener: &MemListener) -> bool {
    match listener.hung_up() {
        [first, second] => {
            is_answered(first, POSTS_ITEM) && is_answered(second, ASKS_FOR_BALANCE)
                || is_answered(first, ASKS_FOR_BALANCE) && is_answered(second, POSTS_ITEM)
        }
        _ => false,
    }
}

// How many of the peers that were hung up sent this request, and had it done.
fn count_answered(listener: &MemListener, request: &[u8]) -> usize {
    let mut count: usize = 0;
    for peer in listener.hung_up() {
        if is_answered(peer, request) {
            count = count.saturating_add(1);
        }
    }
    count
}

#[test]
fn two_peers_are_served_over_one_book(rt: HostRuntime) -> Result<(), Fail> {
    let alloc = rt.alloc();
    let Some(ending) = served(&rt, alloc, listener_of_two(alloc)?, 2, 2) else {
        panic!(rt; "no memory")
    };
    assert!(rt; ending.accepted == 2 && ending.records == RecordNo(1));
    assert!(rt; ending.listener.faults() == 0 && are_answered(&ending.listener));
    Ok(())
}

#[test]
fn a_listener_that_fails_ends_the_service(rt: HostRuntime) -> Result<(), Fail> {
    let alloc = rt.alloc();
    let Some(ending) = served(&rt, alloc, listener_of_two(alloc)?, 16, 16) else {
        panic!(rt; "no memory")
    };
    assert!(rt; ending.accepted == 2 && ending.listener.faults() == 1);
    assert!(rt; ending.listener.hung_up().len() == 2);
    Ok(())
}

#[test]
fn two_desks_serve_five_peers(rt: HostRuntime) -> Result<(), Fail> {
    let alloc = rt.alloc();
    let Some(ending) = served(&rt, alloc, listener_of_five(alloc)?, 2, 5) else {
        panic!(rt; "no memory")
    };
    assert!(rt; ending.accepted == 5 && ending.records == RecordNo(1));
    assert!(rt; ending.listener.faults() == 0 && ending.listener.hung_up().len() == 5);
    assert!(rt; count_answered(&ending.listener, POSTS_ITEM) == 1);
    assert!(rt; count_answered(&ending.listener, ASKS_FOR_BALANCE) == 4);
    Ok(())
}

#[test]
fn fewer_peers_than_are_wanted_are_served(rt: HostRuntime) -> Result<(), Fail> {
    let alloc = rt.alloc();
    let Some(ending) = served(&rt, alloc, listener_of_five(alloc)?, 2, 7) else {
        panic!(rt; "no memory")
    };
    assert!(rt; ending.accepted == 5 && ending.listener.faults() == 1);
    assert!(rt; ending.listener.hung_up().len() == 5);
    Ok(())
}
