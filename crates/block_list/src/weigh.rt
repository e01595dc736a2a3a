//! What an item of a list counts.
ghost use Rattle.std.specs.Prelude.{◌≡◌, ℤ};
ghost use Rattle.block_list.specs.Sums.{IsSmall};

/// What an item counts in the sums of a list. A type of its own may say it for items of another crate, and several types may
/// say it for one kind of items.
pub trait Weigh<T> {
    ghost weight: { T → ℤ };

    /// What the item counts, from -2^40 to 2^40.
    fn weight(item: &T) -> i64
        ensures weight { result ≡ weight item.now }
        ensures small { IsSmall result };
}
