//! A desk that answers a report while another pass holds the book.

use crate::attending::attended;
use crate::mirrors::{Mirrors, mirror_of};
use desk_server::session::End;
use generation_book::book::Book;
use mirrored_desk::session::Left;
use std::alloc::Global;
use std::sync::Wait;
use std::test::Fail;
use stock_io::memory_link::MemLink;
use stock_nums::lines::Lines;
use stock_nums::memory::NoMemory;
use stock_nums::numbers::DeskNo;
use turn_lock::lock::TurnLock;

const ASKS_FOR_BALANCE: &[u8] =
    b"POST /desk HTTP/1.1\r\nHost: x\r\nContent-Length: 30\r\n\r\n{\"do\":\"report\",\"of\":\"balance\"}";

const COVERS_NONE: &[u8] =
    b"HTTP/1.1 200 OK\r\nContent-Type: application/json\r\nContent-Length: 56\r\n\r\n\
    {\"covered\":0,\"report\":\"balance\",\"rows\":[],\"status\":\"ok\"}";

// What a desk's session left, and how many turns at the lock the desk took.
#[derive(Drop)]
struct Session {
    link: MemLink,
    end: End,
    gives: u64,
}

// A peer that asks for all balances, and ends.
fn asking_peer(alloc: Global) -> Result<MemLink, NoMemory> {
    let bytes = Lines::from_vec(ASKS_FOR_BALANCE.to_vec(alloc)?);
    MemLink::new(
        alloc,
        bytes,
        1_000,
        2_000,
        Lines::new(alloc),
        Lines::new(alloc),
    )
}

// Serves the peer while pass 0 holds the book, which is given back once the session is over. A desk that took the lock for a report would
// never end. None where memory is wanting.
fn served_beside<R: Wait>(rt: &R, alloc: Global, mut link: MemLink) -> Option<Session> {
    let book = Book::start(alloc);
    let Some(Mirrors { writer, reader }) = mirror_of(rt, alloc, &book) else {
        return None;
    };
    let Ok((lock, pass)) = TurnLock::new(alloc, book, 2) else {
        writer.end(rt);
        return None;
    };
    let Ok((pass, desk)) = lock.split(pass) else {
        unreachable!()
    };
    let held = lock.take(rt, pass);
    let Left {
        pass: desk,
        reader: _,
        end,
    } = attended(rt, alloc, &lock, DeskNo(1), desk, reader, &mut link);
    let gives = desk.gives();
    let pass = lock.give(held);
    let pass = lock.join(pass, desk);
    lock.close(pass);
    writer.end(rt);
    Some(Session { link, end, gives })
}

#[test]
fn a_report_is_answered_while_the_book_is_held(rt: HostRuntime) -> Result<(), Fail> {
    let alloc = rt.alloc();
    let Some(session) = served_beside(&rt, alloc, asking_peer(alloc)?) else {
        panic!(rt; "no memory")
    };
    assert!(rt; session.link.written() == COVERS_NONE && session.link.is_ended());
    assert!(rt; session.end == End::Closed && session.gives == 0);
    Ok(())
}
