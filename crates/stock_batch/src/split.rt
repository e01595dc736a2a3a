//! Where the first line of some bytes ends.
ghost use Rattle.std.specs.Prelude.{◌≡◌, ◌∷◌, ◌++◌, IfSome, IfNone};
ghost use Rattle.stock_batch.specs.InputParts.{HasNoFeed};

use memchr::memchr;

/// The bytes before the first line feed, and those after it. None exactly where there is no line feed.
pub fn split_line(bytes: &[u8]) -> Option<(&[u8], &[u8])>
    ensures parts { IfSome result (λ parts. bytes.now ≡ parts.0.now ++ 10 ∷ parts.1.now) }
    ensures first { IfSome result (λ parts. HasNoFeed parts.0.now) }
    ensures none { IfNone result (HasNoFeed bytes.now) }
{
    let at = memchr(b'\n', bytes)?;
    Some((&bytes[..at], &bytes[at + 1..]))
}
