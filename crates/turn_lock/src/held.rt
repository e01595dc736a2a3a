ghost use Rattle.std.specs.Prelude.{◌≡◌};
ghost use Rattle.std.specs.Borrow.{sem};

use crate::logged::Logged;
use crate::rule::TurnSeat;
use std::marker::Model;

// A seat whose slot was emptied into the hand of its pass.
pub(crate) struct Hand<B: Logged> {
    pub(crate) seat: TurnSeat<B>,
    pub(crate) gives: u64,
}

impl<B: Logged> Model for Hand<B> {
    ghost use Rattle.std.specs.Prelude.{◌≡◌, ◌<◌, ◌^◌, [], ◌∷◌, length, None};
    ghost use Rattle.turn_lock.specs.declared.view.Turn.TheVariants.{Rest};
    ghost use Rattle.turn_lock.specs.Views.{IsServed, taken_of, taken_faults_of};
    ghost use Rattle.turn_lock.specs.Passes.{HandView};

    ghost Value = { HandView B.Event };

    ghost view = { λ h. record { lock = h.seat.table_id; view = record h.seat.me.0 { turn = Rest }; taken = taken_of h.seat.me.0.turn; taken_faults = taken_faults_of h.seat.me.0.turn } };

    ghost invariant = { λ h. (h.gives ≡ length h.seat.me.0.stops) × (h.gives < 2 ^ 57) × (0 < h.seat.me.0.passes) × IsServed h.seat.me.0.turn × (h.seat.me.1 ≡ (0, None) ∷ []) };
}

/// A turn of a pass, which has the value in its hand.
pub struct Held<B: Logged> {
    pub(crate) hand: Hand<B>,
    pub(crate) book: B,
}

impl<B: Logged> Model for Held<B> {
    ghost use Rattle.turn_lock.specs.Passes.{HeldView};

    ghost Value = { HeldView B B.Event };

    ghost view = { λ h. record { lock = h.hand.lock; view = h.hand.view; taken = h.hand.taken; taken_faults = h.hand.taken_faults; book = h.book } };
}

impl<B: Logged> Held<B> {
    ghost use Rattle.turn_lock.specs.Lending.{LendsBook};

    /// The value, to read and to write.
    pub fn book(&mut self) -> &mut B
        ensures* writes_back { sem 𝓛 (LendsBook B.row B.Event.row B.Logged self.entry result) }
        ensures value { result.now ≡ self.old.book }
    {
        &mut self.book
    }
}
