//! Where a bound falls in a list.
ghost use Rattle.std.specs.Prelude.{◌≡◌, ◌≤◌, Bool, length, IsTrue};
ghost use Rattle.block_list.specs.Bounds.{HasSides};

/// A bound in a list whose items are in order: some come before it, and then the others.
pub trait Bound<T> {
    ghost above: { Self → T → Bool };

    /// Whether the item comes before the bound.
    fn is_above(&self, item: &T) -> bool
        ensures { result ≡ above self.now item.now };
}

/// The part of a list in which a bound still may fall.
#[derive(Clone, Copy)]
struct Span {
    low: usize,
    high: usize,
}

/// Whether the last item comes before the bound, if there is one, so that the bound falls at the end.
fn is_past_all<T, B: Bound<T>>(items: &[T], bound: &B) -> bool
    ensures { IsTrue result → HasSides (B.above bound.now) items.now (length items.now) }
{
    match items {
        [.., last] => bound.is_above(last),
        [] => true,
    }
}

/// An index before which there is an item before the bound, if any, and at which there is one that is not.
pub(crate) fn search<T, B: Bound<T>>(items: &[T], bound: &B) -> usize
    ensures { HasSides (B.above bound.now) items.now result }
{
    // Most often a list is asked at its end.
    if is_past_all(items, bound) {
        return items.len();
    }
    let mut span = Span {
        low: 0,
        high: items.len(),
    };
    while span.low < span.high {
        let middle = span.low + (span.high - span.low) / 2;
        if bound.is_above(&items[middle]) {
            span = Span {
                low: middle + 1,
                high: span.high,
            };
        } else {
            span = Span {
                low: span.low,
                high: middle,
            };
        }
    }
    span.low
}
