//! Whether a connection ends, by the Connection fields of a head.
ghost use Rattle.std.specs.Prelude.{◌≡◌, ◌==◌, false, ◌∷◌, ◌++◌, length, map, reverse, codes, IfSome, IfNone};
ghost use Rattle.std.specs.List.{All, list_any};
ghost use Rattle.httparse.specs.Grammar.{is_ows, skip_ows, trim_ows};
ghost use Rattle.httparse.specs.Spans.{IsHeaderWithin, header_bytes};
ghost use Rattle.desk_wire.specs.Heads.{is_comma, is_close, lists_close, values_of};

use httparse::spans::HeaderSpan;
use memchr::memchr;

/// Whether a Connection field lists `close`: the fields are places in the front of a buffer. ASCII case and
/// blanks around the elements don't matter.
pub fn some_lists_close(front: &[u8], fields: &[HeaderSpan]) -> bool
    requires within { All (IsHeaderWithin (length front.now)) fields.now }
    ensures { result ≡ list_any lists_close (values_of (codes "connection") (map (header_bytes front.now) fields.now)) }
{
    for field in fields {
        if field.name.of(front).eq_ignore_ascii_case(b"connection")
            && lists_close(field.value.of(front))
        {
            return true;
        }
    }
    false
}

// Whether one of the elements between commas is `close`.
fn lists_close(value: &[u8]) -> bool
    ensures { result ≡ lists_close value.now }
{
    let mut rest = value;
    while let Some((element, tail)) = split_comma(rest) {
        if is_close(element) {
            return true;
        }
        rest = tail;
    }
    is_close(rest)
}

// The bytes before the first comma and those after it. None exactly where there is no comma.
fn split_comma(bytes: &[u8]) -> Option<(&[u8], &[u8])>
    ensures parts { IfSome result (λ parts. bytes.now ≡ parts.0.now ++ 44 ∷ parts.1.now) }
    ensures first { IfSome result (λ parts. All (λ b. is_comma b ≡ false) parts.0.now) }
    ensures none { IfNone result (All (λ b. is_comma b ≡ false) bytes.now) }
{
    let at = memchr(b',', bytes)?;
    Some((&bytes[..at], &bytes[at + 1..]))
}

fn is_close(element: &[u8]) -> bool
    ensures { result ≡ is_close element.now }
{
    trimmed(element).eq_ignore_ascii_case(b"close")
}

// The bytes without the spaces and tabs at both ends.
fn trimmed(element: &[u8]) -> &[u8]
    ensures { result.now ≡ trim_ows element.now }
{
    trimmed_at_end(trimmed_at_start(element))
}

fn trimmed_at_start(bytes: &[u8]) -> &[u8]
    ensures { result.now ≡ skip_ows bytes.now }
{
    let mut rest = bytes;
    while let [first, tail @ ..] = rest {
        if !is_blank(*first) {
            return rest;
        }
        rest = tail;
    }
    rest
}

fn trimmed_at_end(bytes: &[u8]) -> &[u8]
    ensures { result.now ≡ reverse (skip_ows (reverse bytes.now)) }
{
    let mut rest = bytes;
    while let [front @ .., last] = rest {
        if !is_blank(*last) {
            return rest;
        }
        rest = front;
    }
    rest
}

fn is_blank(byte: u8) -> bool
    ensures { result ≡ is_ows byte }
{
    byte == b'\t' || byte == b' '
}
