//! What peers send, and what each is to be answered.
use desk_server::session::End;

/// What fails of a connection.
pub struct Flaws {
    /// How many bytes the peer takes.
    pub room: usize,
    /// The numbers of the reads that fail, counted from 1.
    pub reads: &'static [u64],
    /// The numbers of the writes that fail, counted from 1.
    pub writes: &'static [u64],
}

/// A peer, and how its session is to end.
pub struct Case {
    /// What the case shows.
    pub name: &'static str,
    /// All that the peer sends.
    pub sends: &'static [u8],
    /// How many bytes of it a read takes at most, at least 1.
    pub piece: usize,
    /// What fails of its connection.
    pub flaws: Flaws,
    /// How the session ends.
    pub end: End,
    /// All that is written to the peer.
    pub written: &'static [u8],
    /// How many records the book has accepted then.
    pub accepted: u32,
}

const SOUND: Flaws = Flaws {
    room: 1_000,
    reads: &[],
    writes: &[],
};

const ITEM: &[u8] =
    b"POST /desk HTTP/1.1\r\nHost: x\r\nContent-Length: 41\r\n\r\n{\"do\":\"item\",\"code\":\"L1\",\"method\":\"fifo\"}";

const ITEM_IS_ACCEPTED: &[u8] =
    b"HTTP/1.1 200 OK\r\nContent-Type: application/json\r\nContent-Length: 32\r\n\r\n{\"record\":1,\"status\":\"accepted\"}";

const TWO: &[u8] =
    b"POST /desk HTTP/1.1\r\nHost: x\r\nContent-Length: 41\r\n\r\n{\"do\":\"item\",\"code\":\"L1\",\"method\":\"fifo\"}\
    POST /desk HTTP/1.1\r\nHost: x\r\nContent-Length: 40\r\n\r\n{\"do\":\"store\",\"code\":\"W1\",\"account\":100}";

const TWO_ARE_ACCEPTED: &[u8] =
    b"HTTP/1.1 200 OK\r\nContent-Type: application/json\r\nContent-Length: 32\r\n\r\n{\"record\":1,\"status\":\"accepted\"}\
    HTTP/1.1 200 OK\r\nContent-Type: application/json\r\nContent-Length: 32\r\n\r\n{\"record\":2,\"status\":\"accepted\"}";

const CLOSES_BEFORE_A_SECOND: &[u8] =
    b"POST /desk HTTP/1.1\r\nHost: x\r\nConnection: close\r\nContent-Length: 41\r\n\r\n\
    {\"do\":\"item\",\"code\":\"L1\",\"method\":\"fifo\"}\
    POST /desk HTTP/1.1\r\nHost: x\r\nContent-Length: 40\r\n\r\n{\"do\":\"store\",\"code\":\"W1\",\"account\":100}";

const IS_ACCEPTED_AND_CLOSED: &[u8] =
    b"HTTP/1.1 200 OK\r\nContent-Type: application/json\r\nContent-Length: 32\r\nConnection: close\r\n\r\n\
    {\"record\":1,\"status\":\"accepted\"}";

const ASKS: &[u8] =
    b"POST /desk HTTP/1.1\r\nHost: x\r\nContent-Length: 30\r\n\r\n{\"do\":\"report\",\"of\":\"balance\"}";

const COVERS_NONE: &[u8] =
    b"HTTP/1.1 200 OK\r\nContent-Type: application/json\r\nContent-Length: 56\r\n\r\n\
    {\"covered\":0,\"report\":\"balance\",\"rows\":[],\"status\":\"ok\"}";

const REFUSED_WITHOUT_LENGTH: &[u8] =
    b"HTTP/1.1 411 Length Required\r\nContent-Type: application/json\r\nContent-Length: 31\r\n\
    Connection: close\r\n\r\n{\"fault\":\"http\",\"status\":\"bad\"}";

const REFUSED_BY_CODING: &[u8] =
    b"HTTP/1.1 501 Not Implemented\r\nContent-Type: application/json\r\nContent-Length: 31\r\n\
    Connection: close\r\n\r\n{\"fault\":\"http\",\"status\":\"bad\"}";

const REFUSED_BY_METHOD: &[u8] =
    b"HTTP/1.1 405 Method Not Allowed\r\nContent-Type: application/json\r\nContent-Length: 31\r\nAllow: POST\r\n\
    Connection: close\r\n\r\n{\"fault\":\"http\",\"status\":\"bad\"}";

const REFUSED_BY_LENGTH: &[u8] =
    b"HTTP/1.1 413 Payload Too Large\r\nContent-Type: application/json\r\nContent-Length: 31\r\n\
    Connection: close\r\n\r\n{\"fault\":\"http\",\"status\":\"bad\"}";

/// The cases, each over a new book.
pub const CASES: &[Case] = &[
    Case {
        name: "a request in single bytes",
        sends: ITEM,
        piece: 1,
        flaws: SOUND,
        end: End::Closed,
        written: ITEM_IS_ACCEPTED,
        accepted: 1,
    },
    Case {
        name: "a request in one piece",
        sends: ITEM,
        piece: 1_000,
        flaws: SOUND,
        end: End::Closed,
        written: ITEM_IS_ACCEPTED,
        accepted: 1,
    },
    Case {
        name: "two requests in one piece",
        sends: TWO,
        piece: 1_000,
        flaws: SOUND,
        end: End::Closed,
        written: TWO_ARE_ACCEPTED,
        accepted: 2,
    },
    Case {
        name: "a body that is cut off",
        sends: b"POST /desk HTTP/1.1\r\nHost: x\r\nContent-Length: 41\r\n\r\n{\"do\":\"item\"",
        piece: 7,
        flaws: SOUND,
        end: End::Cut { left: 64 },
        written: b"",
        accepted: 0,
    },
    Case {
        name: "a body of which five bytes come",
        sends: b"POST /desk HTTP/1.1\r\nHost: x\r\nContent-Length: 40\r\n\r\n{\"do\"",
        piece: 1_000,
        flaws: SOUND,
        end: End::Cut { left: 57 },
        written: b"",
        accepted: 0,
    },
    Case {
        name: "a body that is refused by its length alone",
        sends: b"POST /desk HTTP/1.1\r\nHost: x\r\nContent-Length: 65537\r\n\r\n",
        piece: 1_000,
        flaws: SOUND,
        end: End::Refused { status: 413 },
        written: REFUSED_BY_LENGTH,
        accepted: 0,
    },
    Case {
        name: "a body of no length",
        sends: b"POST /desk HTTP/1.1\r\nHost: x\r\n\r\n",
        piece: 1_000,
        flaws: SOUND,
        end: End::Refused { status: 411 },
        written: REFUSED_WITHOUT_LENGTH,
        accepted: 0,
    },
    Case {
        name: "a body in chunks",
        sends: b"POST /desk HTTP/1.1\r\nHost: x\r\nTransfer-Encoding: chunked\r\n\r\n0\r\n\r\n",
        piece: 1_000,
        flaws: SOUND,
        end: End::Refused { status: 501 },
        written: REFUSED_BY_CODING,
        accepted: 0,
    },
    Case {
        name: "a report, which the mirror has",
        sends: ASKS,
        piece: 1_000,
        flaws: SOUND,
        end: End::Closed,
        written: COVERS_NONE,
        accepted: 0,
    },
    Case {
        name: "a method that no desk knows",
        sends: b"GET /desk HTTP/1.1\r\nHost: x\r\n\r\n",
        piece: 1_000,
        flaws: SOUND,
        end: End::Refused { status: 405 },
        written: REFUSED_BY_METHOD,
        accepted: 0,
    },
    Case {
        name: "a request that asks to close, and one more",
        sends: CLOSES_BEFORE_A_SECOND,
        piece: 1_000,
        flaws: SOUND,
        end: End::Closed,
        written: IS_ACCEPTED_AND_CLOSED,
        accepted: 1,
    },
    Case {
        name: "a read that fails between requests",
        sends: ITEM,
        piece: 1_000,
        flaws: Flaws {
            room: 1_000,
            reads: &[2],
            writes: &[],
        },
        end: End::ReadFault,
        written: ITEM_IS_ACCEPTED,
        accepted: 1,
    },
    Case {
        name: "a read that fails within a request",
        sends: ITEM,
        piece: 60,
        flaws: Flaws {
            room: 1_000,
            reads: &[2],
            writes: &[],
        },
        end: End::ReadFault,
        written: b"",
        accepted: 0,
    },
    Case {
        name: "a write that fails",
        sends: ITEM,
        piece: 1_000,
        flaws: Flaws {
            room: 1_000,
            reads: &[],
            writes: &[1],
        },
        end: End::WriteFault,
        written: b"",
        accepted: 1,
    },
    Case {
        name: "a write that comes to its end in the middle",
        sends: ITEM,
        piece: 1_000,
        flaws: Flaws {
            room: 10,
            reads: &[],
            writes: &[],
        },
        end: End::WriteFault,
        written: b"HTTP/1.1 2",
        accepted: 1,
    },
];
