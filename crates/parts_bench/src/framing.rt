//! Framing, as the desks' server is to do it.
ghost use Rattle.std.specs.Prelude.{◌≤◌, length};

use desk_wire::wire::{Wire, next_request};

/// How many whole requests stand one after another at the front of the bytes.
pub fn count_framed(bytes: &[u8]) -> usize
    ensures { result ≤ length bytes.now }
{
    let mut rest = bytes;
    let mut count = 0;
    while let Wire::Whole { head, body, .. } = next_request(rest) {
        rest = &rest[head + body..];
        count += 1;
    }
    count
}
