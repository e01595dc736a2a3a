//! What an item of a list becomes.
ghost use Rattle.std.specs.Prelude.{◌≡◌, Option};

/// A change of an item, which may also leave it as it is.
pub trait Change<T> {
    ghost changed: { Self → T → Option T };

    /// What the item becomes. None where it stays as it is.
    fn change(&self, item: &T) -> Option<T>
        ensures { result ≡ changed self.now item.now };
}
