//! Sessions of a desk with peers in memory.
ghost use Rattle.std.specs.Prelude.{◌<◌};

use crate::cases::{CASES, Case};
use desk_server::session::End;
use generation_book::book::Book;
use mirrored_desk::session::{Left, serve_desk_mirrored};
use mirrored_worker::next_generation::first_generation;
use report_mirror::mirror::{Mirror, MirrorWriter, show_to};
use report_mirror::reader::MirrorReader;
use std::alloc::Global;
use std::sync::Wait;
use std::test::Fail;
use stock_io::memory_link::MemLink;
use stock_keeper::nowhere::Nowhere;
use stock_nums::lines::Lines;
use stock_nums::memory::NoMemory;
use stock_nums::numbers::{DeskNo, RecordNo};
use turn_lock::lock::TurnLock;

// What a session leaves: the connection, how it ended, and how many records the book has accepted.
#[derive(Drop)]
struct Session {
    link: MemLink,
    end: End,
    accepted: RecordNo,
}

fn lines_of<T: Copy>(alloc: Global, items: &[T]) -> Result<Lines<T>, NoMemory> {
    let mut lines = Lines::new(alloc);
    for item in items {
        lines.push(*item)?;
    }
    Ok(lines)
}

fn peer_of(alloc: Global, case: &Case) -> Result<MemLink, NoMemory>
    requires { 0 < case.now.piece }
{
    MemLink::new(
        alloc,
        lines_of(alloc, case.sends)?,
        case.piece,
        case.flaws.room,
        lines_of(alloc, case.flaws.reads)?,
        lines_of(alloc, case.flaws.writes)?,
    )
}

// Who shows what a book covers, and who reads it.
struct Mirrors {
    writer: MirrorWriter,
    reader: MirrorReader,
}

fn mirror_of<R: Wait>(rt: &R, alloc: Global, book: &Book<Nowhere>) -> Option<Mirrors> {
    let Ok(first) = first_generation(alloc, book) else {
        return None;
    };
    let Ok(
        Mirror {
            writer,
            mut readers,
        },
    ) = show_to(rt, alloc, first, 1)
    else {
        return None;
    };
    match readers.pop() {
        Some(reader) => Some(Mirrors { writer, reader }),
        None => {
            writer.end(rt);
            None
        }
    }
}

// Serves the peer over a new book and its mirror; none where memory is wanting.
fn served<R: Wait>(rt: &R, alloc: Global, mut link: MemLink) -> Option<Session> {
    let book = Book::start(alloc);
    let Some(Mirrors { writer, reader }) = mirror_of(rt, alloc, &book) else {
        return None;
    };
    let Ok((lock, pass)) = TurnLock::new(alloc, book, 2) else {
        writer.end(rt);
        return None;
    };
    let Ok((pass, desk)) = lock.split(pass) else {
        unreachable!()
    };
    let Left {
        pass: desk,
        reader: _,
        end,
    } = serve_desk_mirrored(rt, alloc, &lock, desk, reader, DeskNo(1), &mut link);
    writer.end(rt);
    let pass = lock.join(pass, desk);
    let book = lock.close(pass);
    Some(Session {
        link,
        end,
        accepted: book.accepted(),
    })
}

// Whether the session ended as the case says, with its connection.
fn is_as_wanted(session: &Session, case: &Case) -> bool {
    session.end == case.end
        && session.link.written() == case.written
        && session.accepted == RecordNo(case.accepted)
        && session.link.is_ended()
}

#[test]
fn each_peer_is_answered_to_its_end(rt: HostRuntime) -> Result<(), Fail> {
    let alloc = rt.alloc();
    for case in CASES {
        assert!(rt; 0 < case.piece, "{}", case.name);
        let Some(session) = served(&rt, alloc, peer_of(alloc, case)?) else {
            panic!(rt; "no memory")
        };
        assert!(rt; is_as_wanted(&session, case), "{}", case.name);
    }
    Ok(())
}
