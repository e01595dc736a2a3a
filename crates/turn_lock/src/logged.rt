ghost use Rattle.std.specs.Prelude.{ℕ, List};
ghost use Rattle.turn_lock.specs.declared.view.Start.{Start};

use crate::view::Start;

/// A value that keeps a history of events, and counts its faults. What it was at first binds what it may become. Contracts alone
/// see all of that.
pub trait Logged {
    /// Plain data.
    type Event;

    // Each event, with the number of the pass that made it.
    ghost history: { Self → List (ℕ × Self.Event) };

    // How many faults the value has met. It never falls.
    ghost faults: { Self → ℕ };

    // What is noted of the value that a lock is made with.
    ghost start: { Self → Start };

    // A value that a lock was made with, of which this was noted, may have become this one.
    ghost follows: { Start → Self → Type 0 };

    // Any value may have become itself.
    ghost starts: { (value : Self) → follows (start value) value };
}
