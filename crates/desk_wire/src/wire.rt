//! What a buffer shows of the request at its front, by the rules of the HTTP profile.
ghost use Rattle.std.specs.Prelude.{◌≡◌, ◌≢◌, ℕ, ◌+◌, ◌<◌, ◌≤◌, List, ◌++◌, length, map, codes};
ghost use Rattle.std.specs.List.{All};
ghost use Rattle.httparse.specs.Spans.{IsHeaderWithin, IsWithin, header_bytes, span_bytes};
ghost use Rattle.desk_wire.specs.declared.wire.Wire.{Wire};
ghost use Rattle.desk_wire.specs.Heads.{values_of};
ghost use Rattle.desk_wire.specs.Rules.{Answers, IfWhole, head_answer, body_answer};

use crate::close::some_lists_close;
use crate::fields::find_named;
use crate::length::read_length;
use http::StatusCode;
use httparse::Status;
use httparse::spans::{EMPTY_HEADER_SPAN, HeaderSpan, RequestSpans, parse_request};

/// The most bytes of a request's head.
pub const HEAD_LIMIT: usize = 65_536;

/// The most bytes of a request's body.
pub const BODY_LIMIT: usize = 65_536;

/// The most fields of a request's head.
pub const FIELD_LIMIT: usize = 64;

/// What a buffer shows of the request at its front.
#[derive(Debug, Clone, Copy, PartialEq, Eq)]
pub enum Wire {
    /// The whole request is there: how many bytes its head and its body have, and whether the
    /// connection ends after it.
    Whole {
        head: usize,
        body: usize,
        close: bool,
    },
    /// More bytes are needed.
    More,
    /// The request is refused with this status.
    Bad {
        status: u16,
    },
}

/// What the bytes show of the request at their front. It takes no memory.
pub fn next_request(buffer: &[u8]) -> Wire
    ensures rules { Answers buffer.now result }

    // An answer other than `More` stays the answer, whatever bytes follow, and is the only one.
    ensures settled { result ≢ Wire.More → (more : List ℕ) → Answers (buffer.now ++ more) result }
    ensures one_answer { result ≢ Wire.More → (more : List ℕ) (wire : Wire) → Answers (buffer.now ++ more) wire
        → wire ≢ Wire.More → wire ≡ result }

    // A request that is whole lies in the buffer, and a buffer of which more is needed is short.
    ensures within { IfWhole result (λ head body close. (0 < head) × (head ≤ HEAD_LIMIT) × (body ≤ BODY_LIMIT)
        × (head + body ≤ length buffer.now)) }
    ensures short { result ≡ Wire.More → length buffer.now < HEAD_LIMIT + BODY_LIMIT }
{
    first_answer(buffer)
}

fn first_answer(buffer: &[u8]) -> Wire
    ensures { Answers buffer.now result }
{
    let front = &buffer[..buffer.len().min(HEAD_LIMIT)];
    let mut fields = [EMPTY_HEADER_SPAN; FIELD_LIMIT];
    match parse_request(front, &mut fields) {
        Ok(Status::Complete(head)) => {
            let after = buffer.len() - head.len;
            answer_head(front, &head, &fields[..head.headers], after)
        }
        Ok(Status::Partial) if buffer.len() < HEAD_LIMIT => Wire::More,
        Ok(Status::Partial) => bad(StatusCode::BAD_REQUEST),
        Err(_) => bad(StatusCode::BAD_REQUEST),
    }
}

fn bad(status: StatusCode) -> Wire
    ensures { result ≡ Wire.Bad status }
{
    Wire::Bad {
        status: status.as_u16(),
    }
}

// The answer to a whole head with so many bytes after it.
fn answer_head(front: &[u8], head: &RequestSpans, fields: &[HeaderSpan], after: usize) -> Wire
    requires method { IsWithin (length front.now) head.now.method }
    requires path { IsWithin (length front.now) head.now.path }
    requires fields { All (IsHeaderWithin (length front.now)) fields.now }
    ensures { result ≡ head_answer head.now.version (span_bytes front.now head.now.method)
        (span_bytes front.now head.now.path) (map (header_bytes front.now) fields.now) head.now.len after }
{
    if head.version == 1 && find_named(front, fields, b"host").count != 1 {
        return bad(StatusCode::BAD_REQUEST);
    }
    if find_named(front, fields, b"transfer-encoding").count != 0 {
        return bad(StatusCode::NOT_IMPLEMENTED);
    }
    if head.method.of(front) != b"POST".as_slice() {
        return bad(StatusCode::METHOD_NOT_ALLOWED);
    }
    if head.path.of(front) != b"/desk".as_slice() {
        return bad(StatusCode::NOT_FOUND);
    }
    let close = head.version == 0 || some_lists_close(front, fields);
    answer_body(front, fields, head.len, after, close)
}

// The answer by the Content-Length fields, to a head of so many bytes with so many bytes after it.
fn answer_body(front: &[u8], fields: &[HeaderSpan], head: usize, after: usize, close: bool) -> Wire
    requires within { All (IsHeaderWithin (length front.now)) fields.now }
    ensures { result ≡ body_answer (values_of (codes "content-length") (map (header_bytes front.now) fields.now)) head after close }
{
    let lengths = find_named(front, fields, b"content-length");
    if lengths.count == 0 {
        return bad(StatusCode::LENGTH_REQUIRED);
    }
    if lengths.count > 1 {
        return bad(StatusCode::BAD_REQUEST);
    }
    match read_length(lengths.first.of(front)) {
        None => bad(StatusCode::BAD_REQUEST),
        Some(body) if body > BODY_LIMIT => bad(StatusCode::PAYLOAD_TOO_LARGE),
        Some(body) if body > after => Wire::More,
        Some(body) => Wire::Whole { head, body, close },
    }
}
