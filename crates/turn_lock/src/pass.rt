ghost use Rattle.std.specs.Prelude.{◌≡◌, length};

use crate::logged::Logged;
use crate::rule::TurnSeat;
use std::marker::Model;

/// The right to take turns at one lock. Contracts see what it knows. It takes no memory but its count of turns.
#[derive(Drop)]
pub struct Pass<B: Logged> {
    pub(crate) seat: TurnSeat<B>,
    pub(crate) gives: u64,
}

impl<B: Logged> Model for Pass<B> {
    ghost use Rattle.std.specs.Prelude.{◌≡◌, ◌<◌, [], length};
    ghost use Rattle.turn_lock.specs.declared.view.Turn.TheVariants.{Rest};
    ghost use Rattle.turn_lock.specs.Passes.{PassView};

    ghost Value = { PassView B.Event };

    ghost view = { λ p. record { lock = p.seat.table_id; view = p.seat.me.0 } };

    ghost invariant = { λ p. (p.gives ≡ length p.seat.me.0.stops) × (0 < p.seat.me.0.passes) × (p.seat.me.0.turn ≡ Rest) × (p.seat.me.1 ≡ []) };
}

impl<B: Logged> Pass<B> {
    /// How many turns the pass has ended.
    pub fn gives(&self) -> u64
        ensures { result ≡ length self.now.view.stops }
    {
        self.gives
    }
}
