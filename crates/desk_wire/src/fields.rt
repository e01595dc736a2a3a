//! The fields of a head, by their names.
ghost use Rattle.std.specs.Prelude.{◌≡◌, ◌+◌, ◌<◌, ◌^◌, [], ◌∷◌, ◌++◌, ℕ, List, length, map};
ghost use Rattle.std.specs.List.{All};
ghost use Rattle.httparse.specs.Spans.{IsHeaderWithin, IsWithin, header_bytes, span_bytes};
ghost use Rattle.desk_wire.specs.Heads.{values_of};
ghost use Rattle.desk_wire.specs.Spans.{Finds};

use httparse::spans::{HeaderSpan, Span};

/// The fields of one name: how many there are, and where the value of the first is.
#[derive(Clone, Copy)]
pub struct Found {
    /// How many fields have the name.
    pub count: usize,
    /// Where the value of the first of them is, or no byte of the front.
    pub first: Span,
}

impl Found {
    // One more value, at this place.
    fn with(self, value: Span) -> Found
        requires room { self.count + 1 < 2 ^ 64 }
        ensures count { result.count ≡ self.count + 1 }
        ensures more { (front : List ℕ) (values : List (List ℕ)) → IsWithin (length front) value → Finds front self values
            → Finds front result (values ++ span_bytes front value ∷ []) }
    {
        let first = if self.count == 0 { value } else { self.first };
        Found {
            count: self.count + 1,
            first,
        }
    }
}

/// Finds the fields of a name, which are places in the front of a buffer. ASCII case of the name doesn't
/// matter.
pub fn find_named(front: &[u8], fields: &[HeaderSpan], name: &[u8]) -> Found
    requires within { All (IsHeaderWithin (length front.now)) fields.now }
    ensures { Finds front.now result (values_of name.now (map (header_bytes front.now) fields.now)) }
{
    let mut found = Found {
        count: 0,
        first: Span { start: 0, end: 0 },
    };
    for field in fields {
        if field.name.of(front).eq_ignore_ascii_case(name) {
            found = found.with(field.value);
        }
    }
    found
}
