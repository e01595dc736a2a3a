//! Which movements take over what leaves with a movement: what enters by the same line of a transfer, and what customers return
//! of the line.
ghost use Rattle.std.specs.Prelude.{◌≡◌, ◌↔◌, true, Contains, List};
ghost use Rattle.repost_laws.specs.Looks.{IsLinkedTo};
ghost use Rattle.stock_model.specs.Conservation.{is_customer_return};
ghost use Rattle.stock_model.specs.Values.{own_line};
ghost use Rattle.stock_nums.specs.declared.cause.Cause.{Cause};
ghost use Rattle.stock_nums.specs.declared.entry.Entry.{Entry};
ghost use Rattle.repost_spread.specs.Marks.{AreMarked};
ghost use Rattle.repost_spread.specs.Movements.{AreKept, line_of};
ghost use Rattle.repost_spread.specs.Spreads.{EntersLaterBy, ComesBackLater, is_back_after};
ghost use Rattle.repost_spread.specs.Touches.{passing_marked};

use crate::movements::Movements;
use crate::naming::own_line;
use repost_frontier::frontier::Frontier;
use stock_nums::cause::{Cause, Target};
use stock_nums::entry::Entry;
use stock_nums::place::{Place, Side};

impl Movements {
    // Makes suspect what the units that leave with this movement enter another warehouse with, or come back with.
    pub(crate) fn mark_linked(&mut self, entry: &Entry)
        ghost line: { List Entry }
        requires kept { AreKept self.old }
        requires same { line_of self.old ≡ line }
        requires held { Contains line entry.now }
        ensures { AreMarked self.old self.new (IsLinkedTo entry.now) }
    {
        if entry.place.side == Side::Leaves {
            self.mark_entering(entry);
            self.mark_back(entry);
        }
    }

    // Makes suspect what enters by the movement's line after it, where that is a transfer's.
    fn mark_entering(&mut self, entry: &Entry)
        ghost line: { List Entry }
        requires kept { AreKept self.old }
        requires same { line_of self.old ≡ line }
        ensures { AreMarked self.old self.new (EntersLaterBy entry.now) }
    {
        if let Some(place) = self.index.place_of(own_line(entry), Side::Enters) {
            if self.is_transfer(&place) && entry.place.is_before(&place) {
                self.mark(&place);
            }
        }
    }

    // Whether what stands at the place enters by a transfer.
    fn is_transfer(&self, place: &Place) -> bool
        ensures { (f : Entry) → Contains (line_of self.now) f → f.place ≡ place.now → ((result ≡ true) ↔ (f.cause ≡ Cause.TransferEnters)) }
    {
        match self.frontier.get(place) {
            Some(slot) => slot.entry.cause == Cause::TransferEnters,
            None => false,
        }
    }

    // Makes suspect what customers return of the movement's line after it.
    fn mark_back(&mut self, entry: &Entry)
        requires kept { AreKept self.old }
        ensures { AreMarked self.old self.new (ComesBackLater entry.now) }
    {
        mark_later_back(
            &mut self.frontier,
            self.links.returns(own_line(entry)),
            &entry.place,
        );
    }
}

// Makes suspect those of the movements that come after the place and are customers' returns.
fn mark_later_back(frontier: &mut Frontier, movements: &[Entry], place: &Place)
    ensures { frontier.new.slots ≡ passing_marked (is_back_after place.now) frontier.old.slots movements.now }
{
    for other in movements {
        if is_customer_return(other) && place.is_before(&other.place) {
            frontier.mark(&other.place);
        }
    }
}

// Whether the movement is a customer's return.
fn is_customer_return(entry: &Entry) -> bool
    ensures { result ≡ is_customer_return entry.now.cause }
{
    matches!(
        entry.cause,
        Cause::CustomerReturn {
            target: _,
            issued: _
        }
    )
}
