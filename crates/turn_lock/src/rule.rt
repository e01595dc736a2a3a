//! The table under the lock: word 0 is the next ticket, word 1 the ticket that is served, each further word a bell on which a pass
//! waits, and the slot has the value.
use crate::logged::Logged;
use crate::view::View;
use atomic_table::{Seat, Table, TableRule};
use std::alloc::Global;
use std::snapshot::Snapshot;

pub struct Turns;

impl<B: Logged> TableRule<Option<B>, View<B::Event>, Snapshot<B>> for Turns {
    ghost use Rattle.turn_lock.specs.Rule.{TakesTurns};
    ghost use Rattle.turn_lock.specs.Views.{opened};

    ghost holds = { λ about. TakesTurns B.history B.faults B.start B.follows about.value };

    ghost first = { λ about. opened (B.history about.value) (B.faults about.value) (B.start about.value) };
}

pub type TurnTable<B> = Table<Option<B>, View<<B as Logged>::Event>, Snapshot<B>, Turns, Global>;

pub type TurnSeat<B> = Seat<Option<B>, View<<B as Logged>::Event>>;
