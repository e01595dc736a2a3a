//! Services over memory: what is printed, what the peers are sent, and how a service ends.
ghost use Rattle.std.specs.Prelude.{All, IfOk};
ghost use Rattle.stock_io.specs.Listeners.{IsNewPeer};

use crate::running::{Ended, Failing, NEVER, serve, shelf};
use std::alloc::Global;
use std::test::Fail;
use stock_io::memory_link::MemLink;
use stock_nums::lines::Lines;
use stock_nums::memory::NoMemory;

const POSTS_ITEM: &[u8] =
    b"POST /desk HTTP/1.1\r\nHost: x\r\nContent-Length: 40\r\n\r\n{\"do\":\"item\",\"code\":\"A\",\"method\":\"fifo\"}";

const IS_ACCEPTED: &[u8] =
    b"HTTP/1.1 200 OK\r\nContent-Type: application/json\r\nContent-Length: 32\r\n\r\n{\"record\":1,\"status\":\"accepted\"}";

const WORDS: [&str; 5] = ["serve", "--desks", "1", "--port=8080", "--file=ledger"];

const WRITE_FAILS: Failing = Failing {
    read: None,
    write: Some(1),
    note: None,
};

// One peer that posts an item in pieces of three bytes, and ends.
fn one_peer(alloc: Global) -> Result<Vec<MemLink>, NoMemory>
    ensures { IfOk result (λ peers. All IsNewPeer peers.items) }
{
    let mut bytes = Lines::new(alloc);
    for byte in POSTS_ITEM {
        bytes.push(*byte)?;
    }
    let mut peers = Vec::new(alloc);
    peers.push(MemLink::new(alloc, bytes, 3, 1_000, Lines::new(alloc), Lines::new(alloc))?)?;
    Ok(peers)
}

// Whether the run ended so, wrote this, and hung up so many peers.
fn ends(ended: &Ended, status: u8, output: &str, notes: &str, peers: usize) -> bool {
    ended.status == status
        && ended.output.bytes() == output.as_bytes()
        && ended.notes.bytes() == notes.as_bytes()
        && ended.listener.hung_up().len() == peers
}

#[test]
fn a_peer_is_served_and_the_summary_printed(rt: HostRuntime) -> Result<(), Fail> {
    let alloc = rt.alloc();
    let mut shelf = shelf(alloc, None)?;
    let ended = serve(
        &rt,
        alloc,
        &WORDS,
        &mut shelf,
        one_peer(alloc)?,
        None,
        NEVER,
    )?;
    assert!(rt; ends(&ended, 0, "{\"covered\":1,\"records\":1}\n", "", 1));
    let [peer] = ended.listener.hung_up() else {
        panic!(rt; "one peer is hung up")
    };
    assert!(rt; peer.written() == IS_ACCEPTED && peer.is_ended());
    Ok(())
}

#[test]
fn a_service_ends_for_its_first_fault(rt: HostRuntime) -> Result<(), Fail> {
    let alloc = rt.alloc();
    let listen = "stockd: listen failed\n";
    for (keeper, listener, failing, status, notes, peers) in [
        (None, Some(1), NEVER, 9, listen, 0),
        (None, Some(2), NEVER, 9, listen, 0),
        (None, None, WRITE_FAILS, 5, "stockd: write failed\n", 1),
        (Some(1), None, NEVER, 6, "stockd: store failed\n", 0),
    ] {
        let mut shelf = shelf(alloc, keeper)?;
        let ended = serve(
            &rt,
            alloc,
            &WORDS,
            &mut shelf,
            one_peer(alloc)?,
            listener,
            failing,
        )?;
        assert!(rt; ends(&ended, status, "", notes, peers), "{status}");
    }
    Ok(())
}

#[test]
fn other_words_are_no_service(rt: HostRuntime) -> Result<(), Fail> {
    let alloc = rt.alloc();
    for words in [
        ["serve", "--file=x", "--port=80", "--desks=0", "--idle=1"],
        ["serve", "--file=x", "--port=80", "--desks=17", "--idle=1"],
        ["serve", "--file=x", "--port=65536", "--desks=1", "--idle=1"],
        ["serve", "--file=x", "--port=80", "--port=80", "--desks=1"],
        ["serve", "--file=", "--port=80", "--desks=1", "--idle=1"],
        ["serve", "--file", "x", "--port=80", "--idle=1"],
        [
            "serve",
            "--file=x",
            "--port=80",
            "--desks=2",
            "--connections=1",
        ],
        [
            "serve",
            "--file=x",
            "--port=80",
            "--desks=1",
            "--idle=86401",
        ],
    ] {
        let mut shelf = shelf(alloc, None)?;
        let ended = serve(&rt, alloc, &words, &mut shelf, Vec::new(alloc), None, NEVER)?;
        assert_eq!(rt; ended.status, 2);
    }
    Ok(())
}
