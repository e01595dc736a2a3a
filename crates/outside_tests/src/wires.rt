//! Requests are heard however they are cut, each buffer is answered by the first rule of the wire, and responses have exact texts.
ghost use Rattle.std.specs.Prelude.{◌<◌};
ghost use Rattle.desk_wire.specs.Responses.{IsDeskStatus};

use crate::lists::lines_of;
use desk_wire::framing::frame;
use desk_wire::heard::{Heard, Request, Stop};
use desk_wire::inbox::Inbox;
use desk_wire::response::response_text;
use desk_wire::wire::{Wire, next_request};
use itoa::Buffer;
use std::alloc::Global;
use stock_io::sure::SureSource;
use stock_nums::memory::NoMemory;

// The first request to a desk.
const ASKED: &[u8] =
    b"POST /desk HTTP/1.1\r\nHost: x\r\nContent-Length: 40\r\n\r\n{\"do\":\"item\",\"code\":\"A\",\"method\":\"fifo\"}";

// Buffers with their answers, rule by rule.
const ANSWERS: &[(&[u8], Wire)] = &[
    // No head, or one that can't be completed.
    (b"", Wire::More),
    (b"\r\n\r\nPOST", Wire::More),
    (b"POST /desk HTTP/1.1\r\nHost: x\r\n", Wire::More),
    (b"\xff\xfe", Wire::Bad { status: 400 }),
    (b"POST /desk HTTP/2.0\r\n", Wire::Bad { status: 400 }),
    (
        b"POST /\xff\xff HTTP/1.1\r\nHost: x\r\n\r\n",
        Wire::Bad { status: 400 },
    ),
    (
        b"POST /desk HTTP/1.1\r\nHost x\r\n",
        Wire::Bad { status: 400 },
    ),
    (
        b"POST /desk HTTP/1.1\r\nHost: x\r\n folded\r\n",
        Wire::Bad { status: 400 },
    ),
    (
        b"POST /desk HTTP/1.1\r\nContent-Length : 0\r\n",
        Wire::Bad { status: 400 },
    ),
    // The host.
    (
        b"POST /desk HTTP/1.1\r\nContent-Length: 0\r\n\r\n",
        Wire::Bad { status: 400 },
    ),
    (
        b"POST /desk HTTP/1.1\r\nHost: x\r\nhOST: x\r\nContent-Length: 0\r\n\r\n",
        Wire::Bad { status: 400 },
    ),
    (
        b"POST /desk HTTP/1.0\r\nHost: x\r\nHost: y\r\nContent-Length: 0\r\n\r\n",
        Wire::Whole {
            head: 60,
            body: 0,
            close: true,
        },
    ),
    // The transfer coding, also beside a length.
    (
        b"GET /desk HTTP/1.1\r\nHost: x\r\nTransfer-Encoding: chunked\r\n\r\n",
        Wire::Bad { status: 501 },
    ),
    (
        b"POST /desk HTTP/1.1\r\nHost: x\r\nContent-Length: 1\r\ntransfer-encoding:\r\n\r\n1",
        Wire::Bad { status: 501 },
    ),
    // The method and the target.
    (
        b"GET /desk HTTP/1.1\r\nHost: x\r\n\r\n",
        Wire::Bad { status: 405 },
    ),
    (
        b"post /desk HTTP/1.1\r\nHost: x\r\n\r\n",
        Wire::Bad { status: 405 },
    ),
    (
        b"POST / HTTP/1.1\r\nHost: x\r\n\r\n",
        Wire::Bad { status: 404 },
    ),
    (
        b"POST /desk/ HTTP/1.1\r\nHost: x\r\n\r\n",
        Wire::Bad { status: 404 },
    ),
    (
        b"POST http://x/desk HTTP/1.1\r\nHost: x\r\n\r\n",
        Wire::Bad { status: 404 },
    ),
    // The length.
    (
        b"POST /desk HTTP/1.1\r\nHost: x\r\n\r\n",
        Wire::Bad { status: 411 },
    ),
    (
        b"POST /desk HTTP/1.1\r\nHost: x\r\nContent-Length: 4x\r\n\r\n",
        Wire::Bad { status: 400 },
    ),
    (
        b"POST /desk HTTP/1.1\r\nHost: x\r\nContent-Length: +4\r\n\r\n",
        Wire::Bad { status: 400 },
    ),
    (
        b"POST /desk HTTP/1.1\r\nHost: x\r\nContent-Length: -1\r\n\r\n",
        Wire::Bad { status: 400 },
    ),
    (
        b"POST /desk HTTP/1.1\r\nHost: x\r\nContent-Length:\r\n\r\n",
        Wire::Bad { status: 400 },
    ),
    (
        b"POST /desk HTTP/1.1\r\nHost: x\r\nContent-Length: 4, 4\r\n\r\n",
        Wire::Bad { status: 400 },
    ),
    (
        b"POST /desk HTTP/1.1\r\nHost: x\r\nContent-Length: 4\r\nContent-Length: 4\r\n\r\n",
        Wire::Bad { status: 400 },
    ),
    (
        b"POST /desk HTTP/1.1\r\nHost: x\r\nContent-Length: 65537\r\n\r\n",
        Wire::Bad { status: 413 },
    ),
    (
        b"POST /desk HTTP/1.1\r\nHost: x\r\nContent-Length: 99999999999999999999999\r\n\r\n",
        Wire::Bad { status: 413 },
    ),
    (
        b"POST /desk HTTP/1.1\r\nHost: x\r\nContent-Length: 65536\r\n\r\n",
        Wire::More,
    ),
    // The body, and what follows it.
    (
        b"POST /desk HTTP/1.1\r\nHost: x\r\nContent-Length: 2\r\n\r\n1",
        Wire::More,
    ),
    (
        b"POST /desk HTTP/1.1\r\nHost: x\r\nContent-Length: 2\r\n\r\n12",
        Wire::Whole {
            head: 51,
            body: 2,
            close: false,
        },
    ),
    (
        b"POST /desk HTTP/1.1\r\nHost: x\r\nContent-Length: 0002\r\n\r\n12GET",
        Wire::Whole {
            head: 54,
            body: 2,
            close: false,
        },
    ),
    (
        b"\r\nPOST /desk HTTP/1.1\nHost: x\nContent-Length: 0\n\n",
        Wire::Whole {
            head: 49,
            body: 0,
            close: false,
        },
    ),
    // Whether the connection ends.
    (
        b"POST /desk HTTP/1.0\r\nContent-Length: 0\r\n\r\n",
        Wire::Whole {
            head: 42,
            body: 0,
            close: true,
        },
    ),
    (
        b"POST /desk HTTP/1.1\r\nHost: x\r\nContent-Length: 0\r\nConnection: keep-alive,\t ClosE \t,x\r\n\r\n",
        Wire::Whole {
            head: 87,
            body: 0,
            close: true,
        },
    ),
    (
        b"POST /desk HTTP/1.1\r\nHost: x\r\nContent-Length: 0\r\nConnection: closed, clo se\r\n\r\n",
        Wire::Whole {
            head: 79,
            body: 0,
            close: false,
        },
    ),
    (
        b"POST /desk HTTP/1.1\r\nHost: x\r\nContent-Length: 0\r\nConnection: a\r\nconnection: close\r\n\r\n",
        Wire::Whole {
            head: 85,
            body: 0,
            close: true,
        },
    ),
    (
        b"POST /desk HTTP/1.1\r\nHost: x\r\nContent-Length: 0\r\nExpect: 100-continue\r\n\r\n",
        Wire::Whole {
            head: 73,
            body: 0,
            close: false,
        },
    ),
];

#[test]
fn buffers_are_answered_by_the_first_rule(rt: HostRuntime) {
    for (buffer, answer) in ANSWERS {
        assert!(rt; next_request(buffer) == *answer);
    }
}

// So many fields with names of one letter and no value, and then a length.
fn with_fields(alloc: Global, count: usize) -> Result<Vec<u8>, NoMemory> {
    let mut bytes = Vec::from_slice(alloc, b"POST /desk HTTP/1.0\r\n")?;
    for _ in 0..count {
        bytes.extend_from_slice(b"a:\r\n")?;
    }
    bytes.extend_from_slice(b"content-length: 0\r\n\r\n")?;
    Ok(bytes)
}

// So many bytes of a head that doesn't end.
fn without_end(alloc: Global, count: usize) -> Result<Vec<u8>, NoMemory> {
    let mut bytes = Vec::from_slice(alloc, b"POST /")?;
    bytes.resize(count, b'a')?;
    Ok(bytes)
}

// Whether the bytes are answered so.
fn are_answered(bytes: Result<Vec<u8>, NoMemory>, answer: Wire) -> bool {
    match bytes {
        Ok(bytes) => next_request(bytes.as_slice()) == answer,
        Err(NoMemory) => false,
    }
}

#[test]
fn heads_have_limits(rt: HostRuntime) {
    let bad = Wire::Bad { status: 400 };
    let whole = Wire::Whole {
        head: 294,
        body: 0,
        close: true,
    };
    // 64 fields and 65.
    for (count, answer) in [(63, whole), (64, bad)] {
        assert!(rt;
            are_answered(with_fields(rt.alloc(), count), answer),
            "{count}"
        );
    }
    // 65,536 bytes without an end, and 65,535.
    for (count, answer) in [(65_536, bad), (65_535, Wire::More)] {
        assert!(rt;
            are_answered(without_end(rt.alloc(), count), answer),
            "{count}"
        );
    }
}

fn source_of(alloc: Global, bytes: &[u8], piece: usize) -> Result<SureSource, NoMemory>
    requires { 0 < piece }
{
    Ok(SureSource::new(lines_of(alloc, bytes)?, piece))
}

// What the inbox hears of these bytes.
fn heard(alloc: Global, inbox: &mut Inbox, bytes: &[u8], piece: usize) -> Option<Heard> {
    if piece == 0 {
        return None;
    }
    let mut source = source_of(alloc, bytes, piece).ok()?;
    inbox.hear(&mut source).ok()
}

// What is heard of some bytes and then of others.
fn heard_in_two(alloc: Global, first: &[u8], second: &[u8]) -> Option<(Heard, Heard)> {
    let mut inbox = Inbox::new(alloc, 1 << 32).ok()?;
    let before = heard(alloc, &mut inbox, first, 100)?;
    let after = heard(alloc, &mut inbox, second, 100)?;
    Some((before, after))
}

// What is heard of bytes in pieces of so many.
fn heard_in_pieces(alloc: Global, bytes: &[u8], piece: usize) -> Option<Heard> {
    let mut inbox = Inbox::new(alloc, 1 << 32).ok()?;
    heard(alloc, &mut inbox, bytes, piece)
}

const ASKED_IS_HEARD: Heard = Heard::Next(Request {
    head: 52,
    body: 40,
    close: false,
});

#[test]
fn a_request_is_heard_however_it_is_cut(rt: HostRuntime) {
    let told = Some((Heard::Last(Stop::Ended), ASKED_IS_HEARD));
    for cut in 0..ASKED.len() {
        assert!(rt;
            heard_in_two(rt.alloc(), &ASKED[..cut], &ASKED[cut..]) == told,
            "{cut}"
        );
    }
    for piece in [1, 100] {
        assert!(rt;
            heard_in_pieces(rt.alloc(), ASKED, piece) == Some(ASKED_IS_HEARD),
            "{piece}"
        );
    }
}

// A request whose head and body have so many bytes.
fn request_of(alloc: Global, head: usize, body: usize) -> Result<Vec<u8>, NoMemory> {
    let mut bytes = Vec::from_slice(alloc, b"POST /desk HTTP/1.0\r\nContent-Length: ")?;
    bytes.extend_from_slice(Buffer::new().format(body).as_bytes())?;
    bytes.extend_from_slice(b"\r\nX: ")?;
    bytes.resize(head.saturating_sub(4), b'a')?;
    bytes.extend_from_slice(b"\r\n\r\n")?;
    bytes.resize(head.saturating_add(body), b'1')?;
    Ok(bytes)
}

// Whether such a request is heard.
fn is_heard(alloc: Global, head: usize, body: usize) -> bool {
    let Ok(bytes) = request_of(alloc, head, body) else {
        return false;
    };
    let asked = Heard::Next(Request {
        head,
        body,
        close: true,
    });
    heard_in_pieces(alloc, bytes.as_slice(), 10_000) == Some(asked)
}

#[test]
fn a_request_of_the_largest_size_is_heard(rt: HostRuntime) {
    for (head, body) in [(65_536, 0), (100, 65_536), (65_536, 65_536)] {
        assert!(rt; is_heard(rt.alloc(), head, body), "{head} {body}");
    }
}

const STREAM: &[u8] =
    b"POST /desk HTTP/1.0\r\nContent-Length: 3\r\n\r\n123POST /desk HTTP/1.0\r\ncontent-length: 1\r\n\r\n4GET / HTTP/1.0\r\n\r\n";

// How many requests are framed of the stream by an inbox that takes so many bytes, and why no more.
fn framed(alloc: Global, most: u64) -> Option<(usize, Stop)> {
    let mut inbox = Inbox::new(alloc, most).ok()?;
    let mut source = source_of(alloc, STREAM, 7).ok()?;
    let framing = frame(alloc, &mut inbox, &mut source).ok()?;
    Some((framing.requests.len(), framing.stop))
}

#[test]
fn a_stream_is_framed(rt: HostRuntime) {
    let refused = Stop::Refused { status: 405 };
    for (most, told) in [(1 << 32, (2, refused)), (20, (0, Stop::TooMuch))] {
        assert!(rt; framed(rt.alloc(), most) == Some(told), "{most}");
    }
}

// A status that a desk has, a body, whether the connection is closed, and the response.
#[derive(Clone, Copy)]
struct Response {
    status: u16,
    body: &'static [u8],
    close: bool,
    text: &'static [u8],
    ghost of_desk: { IsDeskStatus status },
}

// Whether the response has its text.
fn is_written_so(alloc: Global, response: &Response) -> bool {
    match response_text(alloc, response.status, response.body, response.close) {
        Ok(text) => text.as_slice() == response.text,
        Err(_) => false,
    }
}

#[test]
fn responses_have_exact_texts(rt: HostRuntime) {
    for response in [
        Response {
            status: 200,
            body: b"{\"record\":1,\"status\":\"accepted\"}",
            close: false,
            text: b"HTTP/1.1 200 OK\r\nContent-Type: application/json\r\nContent-Length: 32\r\n\r\n{\"record\":1,\"status\":\"accepted\"}",
        },
        Response {
            status: 413,
            body: b"{\"fault\":\"http\",\"status\":\"bad\"}",
            close: true,
            text: b"HTTP/1.1 413 Payload Too Large\r\nContent-Type: application/json\r\nContent-Length: 31\r\nConnection: close\r\n\r\n{\"fault\":\"http\",\"status\":\"bad\"}",
        },
        Response {
            status: 405,
            body: b"",
            close: true,
            text: b"HTTP/1.1 405 Method Not Allowed\r\nContent-Type: application/json\r\nContent-Length: 0\r\nAllow: POST\r\nConnection: close\r\n\r\n",
        },
    ] {
        assert!(rt; is_written_so(rt.alloc(), &response), "{}", response.status);
    }
}
