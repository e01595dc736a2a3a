//! Which movements need a new value when others came or go, part by part: the next ones of an item in a warehouse, and those
//! of a line that is charged.
ghost use Rattle.std.specs.Prelude.{◌≡◌, ◌↔◌, ◌||◌, ◌++◌, true, nat_lt, Contains, List};
ghost use Rattle.cost_links.specs.Charged.{charge_pairs};
ghost use Rattle.cost_links.specs.Sources.{target_of};
ghost use Rattle.repost_laws.specs.Fetches.{AreNew, is_charged_in};
ghost use Rattle.repost_laws.specs.Touched.{is_changed, is_touched_by};
ghost use Rattle.stock_model.specs.Enough.{entry_key};
ghost use Rattle.stock_nums.specs.declared.cause.Method.{Method};
ghost use Rattle.stock_nums.specs.declared.entry.Entry.{Entry};
ghost use Rattle.repost_spread.specs.Movements.{AreKept, line_of};
ghost use Rattle.repost_spread.specs.Marks.{AreMarked};
ghost use Rattle.repost_spread.specs.Touches.{ComesNext, LeavesFirstIn, LeavesNext, ReturnsLater, ComesAfter, ComesAfterOne, IsAtOne, IsChargedByOne, IsOfLine, IsOfSide, AreByRecord, AreOfRecords, has_record, is_after, passing_marked};

use crate::movements::Movements;
use crate::naming::key_of;
use cost_links::charges::Charge;
use repost_frontier::frontier::Frontier;
use stock_nums::cause::{Cause, Method, Target};
use stock_nums::entry::{Entry, Key};
use stock_nums::numbers::RecordNo;
use stock_nums::place::{Place, Side};

impl Movements {
    /// Makes suspect each movement that what comes and goes touches, while all of these movements are there: those that come,
    /// which are all of the records after the first `n` ones; those whose lines are charged or no longer charged; and of those
    /// that come or go, which are all of their records, the next of an item in a warehouse at the moving average, all that leaves
    /// after them first in, first out, and later returns of the same lines. It takes no memory.
    pub fn touch(
        &mut self,
        n: RecordNo,
        coming: &[Entry],
        gone: &[Entry],
        charges: &[Charge],
        uncharged: &[Charge],
    )
        requires kept { AreKept self.old }
        requires new_ones { AreNew n.0 (line_of self.old) coming.now }
        requires held { (e : Entry) → Contains coming.now e → Contains (line_of self.old) e }
        requires going { AreOfRecords (line_of self.old) gone.now }
        ensures { AreMarked self.old self.new
            (λ f. is_touched_by n.0 (has_record gone.now) (is_charged_in (charge_pairs charges.now ++ charge_pairs uncharged.now)) (line_of self.old) f ≡ true) }
    {
        self.mark_all(coming);
        self.touch_after_all(n, gone, coming);
        self.touch_after_all(n, gone, gone);
        self.mark_lines(charges);
        self.mark_lines(uncharged);
    }

    // Makes the movements suspect.
    fn mark_all(&mut self, entries: &[Entry])
        requires { AreKept self.old }
        ensures { AreMarked self.old self.new (IsAtOne entries.now) }
    {
        for entry in entries {
            self.mark(&entry.place);
        }
    }

    // Makes suspect what comes after the movements, each of which comes or goes.
    fn touch_after_all(&mut self, n: RecordNo, gone: &[Entry], entries: &[Entry])
        requires kept { AreKept self.old }
        requires held { (e : Entry) → Contains entries.now e → Contains (line_of self.old) e }
        requires changed { (e : Entry) → Contains entries.now e → is_changed n.0 (has_record gone.now) e ≡ true }
        requires by_record { AreByRecord gone.now }
        ensures { AreMarked self.old self.new (ComesAfterOne (is_changed n.0 (has_record gone.now)) (line_of self.old) entries.now) }
    {
        for entry in entries {
            self.touch_after(n, gone, entry);
        }
    }

    // Makes suspect what comes after the movement, which comes or goes: the next at the moving average, what leaves first in, first
    // out up to the next one that comes or goes, and later returns of the same line.
    fn touch_after(&mut self, n: RecordNo, gone: &[Entry], entry: &Entry)
        requires kept { AreKept self.old }
        requires held { Contains (line_of self.old) entry.now }
        requires changed { is_changed n.0 (has_record gone.now) entry.now ≡ true }
        requires by_record { AreByRecord gone.now }
        ensures { AreMarked self.old self.new (ComesAfter (is_changed n.0 (has_record gone.now)) (line_of self.old) entry.now) }
    {
        self.mark_started(entry);
        self.mark_left(n, gone, entry);
        self.mark_returned(entry);
    }

    // Makes the movement at the place suspect, if there is one.
    pub(crate) fn mark(&mut self, place: &Place)
        requires { AreKept self.old }
        ensures { AreMarked self.old self.new (λ f. f.place ≡ place.now) }
    {
        self.frontier.mark(place);
    }

    // Makes the next of the item in the warehouse suspect, where that is costed at the moving average.
    fn mark_started(&mut self, entry: &Entry)
        ghost line: { List Entry }
        requires kept { AreKept self.old }
        requires same { line_of self.old ≡ line }
        ensures { AreMarked self.old self.new (ComesNext line entry.now) }
    {
        if let Some(place) = self.index.next(key_of(entry), &entry.place) {
            if self.is_average(&place) {
                self.mark(&place);
            }
        }
    }

    // Whether what stands at the place is costed at the moving average.
    fn is_average(&self, place: &Place) -> bool
        ensures { (f : Entry) → Contains (line_of self.now) f → f.place ≡ place.now → ((result ≡ true) ↔ (f.method ≡ Method.Average)) }
    {
        match self.frontier.get(place) {
            Some(slot) => slot.entry.method == Method::Average,
            None => false,
        }
    }

    // Makes suspect what leaves first in, first out after the movement and up to the next one of the item in the warehouse that comes
    // or goes.
    fn mark_left(&mut self, n: RecordNo, gone: &[Entry], entry: &Entry)
        ghost line: { List Entry }
        requires kept { AreKept self.old }
        requires same { line_of self.old ≡ line }
        requires held { Contains line entry.now }
        requires changed { is_changed n.0 (has_record gone.now) entry.now ≡ true }
        requires by_record { AreByRecord gone.now }
        ensures { AreMarked self.old self.new (LeavesNext (is_changed n.0 (has_record gone.now)) line entry.now) }
    {
        let mut last = entry.place;
        while let Some(place) = self.index.next(key_of(entry), &last) {
            if self.leaves_first_in(&place) {
                self.frontier.mark(&place);
            }
            if is_changed(n, gone, place.voucher) {
                return;
            }
            last = place;
        }
    }

    // Whether what stands at the place leaves first in, first out.
    fn leaves_first_in(&self, place: &Place) -> bool
        ensures { (f : Entry) → Contains (line_of self.now) f → f.place ≡ place.now → ((result ≡ true) ↔ LeavesFirstIn f) }
    {
        match self.frontier.get(place) {
            Some(slot) => slot.entry.method == Method::Fifo && place.side == Side::Leaves,
            None => false,
        }
    }

    // Makes suspect the returns of the same line that come after the movement, where it is a return.
    fn mark_returned(&mut self, entry: &Entry)
        requires kept { AreKept self.old }
        ensures { AreMarked self.old self.new (ReturnsLater entry.now) }
    {
        if let Some(line) = target_of(entry) {
            mark_later(&mut self.frontier, self.links.returns(line), &entry.place);
        }
    }

    // Makes the movements of the lines of the charges suspect.
    fn mark_lines(&mut self, charges: &[Charge])
        requires kept { AreKept self.old }
        ensures { AreMarked self.old self.new (IsChargedByOne charges.now) }
    {
        for charge in charges {
            self.mark_line(charge.line);
        }
    }

    // Makes the movements of the line suspect.
    fn mark_line(&mut self, own: Target)
        requires kept { AreKept self.old }
        ensures { AreMarked self.old self.new (IsOfLine own) }
    {
        self.mark_side(own, Side::Leaves);
        self.mark_side(own, Side::Enters);
    }

    // Makes the movement of the line on this side suspect.
    fn mark_side(&mut self, own: Target, side: Side)
        ghost line: { List Entry }
        requires kept { AreKept self.old }
        requires same { line_of self.old ≡ line }
        ensures { AreMarked self.old self.new (IsOfSide own side) }
    {
        if let Some(place) = self.index.place_of(own, side) {
            self.mark(&place);
        }
    }
}

// Whether the movements of a record come, which those after the first `n` ones do, or go.
fn is_changed(n: RecordNo, gone: &[Entry], voucher: RecordNo) -> bool
    requires { AreByRecord gone.now }
    ensures { result ≡ (nat_lt n.0 voucher.0 || has_record gone.now voucher.0) }
{
    voucher.0 > n.0 || has_record(gone, voucher)
}

// Whether one of the movements, which are in the order of their records, is of this record.
fn has_record(entries: &[Entry], voucher: RecordNo) -> bool
    requires { AreByRecord entries.now }
    ensures { result ≡ has_record entries.now voucher.0 }
{
    let index = entries.partition_point(|entry| entry.place.voucher.0 < voucher.0);
    match entries.get(index) {
        Some(entry) => entry.place.voucher.0 == voucher.0,
        None => false,
    }
}

// Makes suspect those of the movements that come after the place.
fn mark_later(frontier: &mut Frontier, movements: &[Entry], place: &Place)
    ensures { frontier.new.slots ≡ passing_marked (is_after place.now) frontier.old.slots movements.now }
{
    for other in movements {
        if place.is_before(&other.place) {
            frontier.mark(&other.place);
        }
    }
}

// The line of which the movement returns units. None exactly where it is no return.
fn target_of(entry: &Entry) -> Option<Target>
    ensures { result ≡ target_of entry.now.cause }
{
    match entry.cause {
        Cause::CustomerReturn { target, issued: _ } => Some(target),
        Cause::SupplierReturn {
            target,
            amount: _,
            received: _,
        } => Some(target),
        _ => None,
    }
}
