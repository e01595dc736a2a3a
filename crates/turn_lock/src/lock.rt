ghost use Rattle.std.specs.Prelude.{◌≡◌, ℕ, ◌+◌, ◌-◌, ◌^◌, ◌<◌, ◌≤◌, [], ◌∷◌, ◌++◌, length, All, Some, None, IfOk, IfErr, IsOk};
ghost use Rattle.turn_lock.specs.declared.view.Turn.TheVariants.{Rest, Drawn};
ghost use Rattle.turn_lock.specs.Histories.{BeginsWith, past, made_by};
ghost use Rattle.turn_lock.specs.Views.{opened, split_left, split_right, joined_view, all_faults, made_through, drawn, served};
ghost use Rattle.turn_lock.specs.Steps.{Learns};

use crate::held::{Hand, Held};
use crate::logged::Logged;
use crate::pass::Pass;
use crate::plays::{Check, Come, Cut, Draw, Look, Merge, Raise, Ring};
use crate::rule::{TurnSeat, TurnTable};
use atomic_table::{Refused, Table};
use std::alloc::Global;
use std::hint;
use std::marker::Model;
use std::snapshot::Snapshot;
use std::sync::Wait;

const TICKET: usize = 0;

const SERVING: usize = 1;

const FIRST_BELL: usize = 2;

// There are more bells than passes, so that no two of those that wait have the same.
const BELLS: u64 = 32;

const WORDS: usize = 34;

const SLOT: usize = 0;

// How often the pass that is next looks in vain before it parks.
const SPINS: u32 = 2_000;

// The part of a word that parking looks at.
const LOW_BITS: u64 = 0xFFFF_FFFF;

/// A lock round one value, which is handed out in turn.
pub struct TurnLock<B: Logged> {
    table: TurnTable<B>,
    seats: u32,
}

impl<B: Logged> Model for TurnLock<B> {
    ghost use Rattle.std.specs.Prelude.{◌≡◌, ◌≤◌};
    ghost use Rattle.turn_lock.specs.Passes.{LockView};

    ghost Value = { LockView };

    ghost view = { λ l. record { lock = l.table.shared.table_id; seats = l.seats } };

    ghost invariant = { λ l. (l.seats ≤ 17) × (l.table.shared.table_id.words ≡ 34) × (l.table.shared.table_id.slots ≡ 1) };
}

/// There was no memory for a lock. The value comes back.
#[derive(Drop)]
pub struct NotMade<B> {
    pub book: B,
}

/// There was no memory for another pass. The pass comes back.
#[derive(Drop)]
pub struct NotSplit<B: Logged> {
    pub pass: Pass<B>,
}

impl<B: Logged> TurnLock<B> {
    /// A lock round the value, for so many passes, and pass 0, which has seen the value as it is.
    pub fn new(alloc: Global, book: B, seats: u32) -> Result<(TurnLock<B>, Pass<B>), NotMade<B>>
        requires seats { (0 < seats) × (seats ≤ 17) }
        ensures lock { IfOk result (λ made. (made.0.lock ≡ made.1.lock) × (made.0.seats ≡ seats)) }
        ensures pass { IfOk result (λ made. made.1.view ≡ opened (B.history book) (B.faults book) (B.start book)) }
        ensures book { IfErr result (λ refused. refused.book ≡ book) }
    {
        let about = Snapshot::of(&book);
        let mut slots = Vec::new(alloc);
        if let Err(failed) = slots.push(Some(book)) {
            slots.destroy_empty();
            return match failed.value {
                Some(book) => Err(NotMade { book }),
                None => unreachable!(),
            };
        }
        match Table::new(alloc, &[0; WORDS], slots, &about) {
            Ok((table, seat)) => Ok((TurnLock { table, seats }, Pass { seat, gives: 0 })),
            Err(Refused { slots }) => Err(NotMade { book: only(slots) }),
        }
    }

    /// Splits a pass off pass 0, with the next number. It has seen what pass 0 has. Today this takes no
    /// memory, and is never refused.
    pub fn split(&self, pass: Pass<B>) -> Result<(Pass<B>, Pass<B>), NotSplit<B>>
        requires same_lock { pass.lock ≡ self.now.lock }
        requires zero { pass.view.number ≡ 0 }
        requires room { pass.view.split + 1 < self.now.seats }
        ensures never_refused { IsOk result }
        ensures pass { IfOk result (λ both. (both.0.lock ≡ pass.lock) × (both.0.view ≡ split_left pass.view)) }
        ensures other { IfOk result (λ both. (both.1.lock ≡ pass.lock) × (both.1.view ≡ split_right pass.view)) }
    {
        let Pass { mut seat, gives } = pass;
        let other = self.table.shared.split_seat::<Cut>(&mut seat);
        Ok((
            Pass { seat, gives },
            Pass {
                seat: other,
                gives: 0,
            },
        ))
    }

    /// Hands the value out, as the turn of the pass comes. It may wait, and nothing is said of how long.
    pub fn take<R: Wait>(&self, rt: &R, pass: Pass<B>) -> Held<B>
        requires same_lock { pass.lock ≡ self.now.lock }
        requires few_turns { length pass.view.stops < 2 ^ 57 }
        ensures pass { (result.lock ≡ pass.lock) × (result.view ≡ pass.view) }
        ensures history { B.history result.book ≡ result.taken }
        ensures faults { B.faults result.book ≡ result.taken_faults }
        ensures begins { BeginsWith result.taken pass.view.seen }
        ensures no_fewer_faults { pass.view.seen_faults ≤ result.taken_faults }
        ensures follows { B.follows pass.view.start result.book }
        ensures own { made_by pass.view.number (past pass.view.first result.taken) ≡ pass.view.made }
        ensures none_past { made_by pass.view.number (past pass.view.seen result.taken) ≡ [] }
    {
        let Pass { mut seat, gives } = pass;
        let ticket = self.draw(rt, &mut seat);
        let book = self.wait(rt, &mut seat, ticket);
        Held {
            hand: Hand { seat, gives },
            book,
        }
    }

    // Draws the next ticket.
    fn draw<R: Wait>(&self, rt: &R, seat: &mut TurnSeat<B>) -> u64
        requires same_lock { seat.old.table_id ≡ self.now.lock }
        requires rests { (seat.old.me.0.turn ≡ Rest) × (0 < seat.old.me.0.passes) × (length seat.old.me.0.stops < 2 ^ 57) }
        ensures same_lock { seat.new.table_id ≡ seat.old.table_id }
        ensures drawn { seat.new.me ≡ (drawn seat.old.me.0 result, seat.old.me.1) }
    {
        let words = &self.table.shared;
        let mut next = words.load::<Look>(seat, TICKET);
        for _ in rt.forever() {
            let found = words.compare_exchange::<Draw>(seat, TICKET, next, next + 1);
            if found == next {
                return next;
            }
            next = found;
        }
        unreachable!()
    }

    // Looks until the ticket is served, and takes the value out of the slot. It hears its bell before it looks, so that no ring is
    // missed.
    fn wait<R: Wait>(&self, rt: &R, seat: &mut TurnSeat<B>, ticket: u64) -> B
        requires same_lock { seat.old.table_id ≡ self.now.lock }
        requires drawn { (seat.old.me.0.turn ≡ Drawn ticket) × (0 < seat.old.me.0.passes) × (seat.old.me.1 ≡ []) }
        ensures same_lock { seat.new.table_id ≡ seat.old.table_id }
        ensures served { seat.new.me ≡ (served seat.old.me.0 ticket (B.history result) (B.faults result), (0, None) ∷ []) }
        ensures learns { Learns seat.old.me.0 (B.history result) (B.faults result) }
        ensures follows { B.follows seat.old.me.0.start result }
    {
        let words = &self.table.shared;
        let bell = bell_of(ticket);
        let mut looks = 0;
        for _ in rt.forever() {
            let heard = words.peek(bell);
            let found = words.load::<Come>(seat, SERVING);
            if found == ticket {
                match words.exchange(seat, SLOT, None) {
                    Some(book) => return book,
                    None => unreachable!(),
                }
            }
            if looks < SPINS && found.wrapping_add(1) == ticket {
                looks += 1;
                hint::spin_loop();
            } else {
                words.park(rt, bell, (heard & LOW_BITS) as u32);
            }
        }
        unreachable!()
    }

    /// Ends a turn: puts the value back, for the next ticket.
    pub fn give(&self, held: Held<B>) -> Pass<B>
        requires same_lock { held.lock ≡ self.now.lock }
        requires grown { BeginsWith (B.history held.book) held.taken }
        requires own { All (λ e. e.0 ≡ held.view.number) (past held.taken (B.history held.book)) }
        requires no_fewer_faults { held.taken_faults ≤ B.faults held.book }
        requires follows { B.follows held.view.start held.book }
        ensures same_lock { result.lock ≡ held.lock }
        ensures seen { (result.view.seen ≡ B.history held.book) × (result.view.seen_faults ≡ B.faults held.book) }
        ensures made { result.view.made ≡ held.view.made ++ past held.taken (B.history held.book) }
        ensures stops { result.view.stops ≡ held.view.stops ++ length held.taken ∷ [] }
        ensures faults { result.view.faults ≡ held.view.faults + (B.faults held.book - held.taken_faults) }
        ensures rest { result.view ≡ record held.view { seen = result.view.seen; seen_faults = result.view.seen_faults; made = result.view.made; stops = result.view.stops; faults = result.view.faults } }
        ensures own { made_by result.view.number (past result.view.first result.view.seen) ≡ result.view.made }
    {
        let Held { hand, book } = held;
        let Hand { mut seat, gives } = hand;
        let words = &self.table.shared;
        match words.exchange(&mut seat, SLOT, Some(book)) {
            None => {}
            Some(_) => unreachable!(),
        }
        let served = words.fetch_add::<Raise>(&mut seat, SERVING, 1);
        let next = served.wrapping_add(1);
        if words.peek(TICKET) != next {
            let bell = bell_of(next);
            words.fetch_add::<Ring>(&mut seat, bell, 1);
            words.wake_all(bell);
        }
        Pass {
            seat,
            gives: gives + 1,
        }
    }

    /// Joins another pass of the lock into pass 0, which has then seen the longer of both histories.
    pub fn join(&self, kept: Pass<B>, other: Pass<B>) -> Pass<B>
        requires same_lock { (kept.lock ≡ self.now.lock) × (other.lock ≡ self.now.lock) }
        requires zero { kept.view.number ≡ 0 }
        ensures same_lock { result.lock ≡ kept.lock }
        ensures joined { result.view ≡ joined_view kept.view other.view }
        ensures saw_both { BeginsWith result.view.seen kept.view.seen × BeginsWith result.view.seen other.view.seen }
        ensures no_fewer_faults { (kept.view.seen_faults ≤ result.view.seen_faults) × (other.view.seen_faults ≤ result.view.seen_faults) }
        ensures own { made_by 0 (past result.view.first result.view.seen) ≡ result.view.made }
        ensures of_other { made_by other.view.number (past result.view.first result.view.seen) ≡ other.view.made }
    {
        let Pass { mut seat, gives } = kept;
        let Pass {
            seat: other,
            gives: _,
        } = other;
        let words = &self.table.shared;
        words.join_seat::<Merge>(&mut seat, other);
        words.load::<Check>(&mut seat, TICKET);
        Pass { seat, gives }
    }

    /// Ends the lock, and gives its value back.
    pub fn close(self, pass: Pass<B>) -> B
        requires same_lock { pass.lock ≡ self.lock }
        requires zero { pass.view.number ≡ 0 }
        requires all_joined { length pass.view.joined ≡ pass.view.split }
        ensures seen { B.history result ≡ pass.view.seen }
        ensures faults { B.faults result ≡ pass.view.seen_faults }
        ensures follows { B.follows pass.view.start result }
        ensures begins { BeginsWith (B.history result) pass.view.first }
        ensures made { (k : ℕ) → made_by k (past pass.view.first (B.history result)) ≡ made_through k pass.view }
        ensures rose { pass.view.first_faults + all_faults pass.view ≡ B.faults result }
    {
        let TurnLock { table, seats: _ } = self;
        let Pass { seat, gives: _ } = pass;
        let mut closed = table.close_with(seat);
        let slot = closed.take(SLOT);
        closed.free();
        match slot {
            Some(book) => book,
            None => unreachable!(),
        }
    }
}

// The word on which the pass with this ticket waits.
fn bell_of(ticket: u64) -> usize
    ensures { (1 < result) × (result < 34) }
{
    FIRST_BELL + (ticket % BELLS) as usize
}

// The one value in the slots.
fn only<B>(mut slots: Vec<Option<B>>) -> B
    requires { (book : B) × (slots.items ≡ Some book ∷ []) }
    ensures { slots.items ≡ Some result ∷ [] }
{
    match slots.pop() {
        Some(Some(book)) => {
            slots.destroy_empty();
            book
        }
        _ => unreachable!(),
    }
}
