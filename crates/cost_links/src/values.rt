//! What one movement is worth, from what it takes over from others.
ghost use Rattle.std.specs.Prelude.{◌≡◌, ◌+◌, ◌<◌, ◌≤◌, [], ◌∷◌, ◌++◌, pos, ◌≤ℤ◌, not, unsigned_abs, IsTrue, Some, List};
ghost use Rattle.stock_nums.specs.Causes.{is_entering, enters_by};
ghost use Rattle.stock_nums.specs.declared.entry.Entry.{Entry};
ghost use Rattle.stock_nums.specs.declared.entry.Row.{Row};
ghost use Rattle.stock_nums.specs.declared.limits.TheConstants.{MAX_UNITS, MAX_VALUE};
ghost use Rattle.stock_model.specs.Bounds.{AreBounded};
ghost use Rattle.stock_model.specs.Enough.{entry_key};
ghost use Rattle.stock_model.specs.PostingOrder.{posting_line};
ghost use Rattle.stock_model.specs.Replay.{value_next, rows_of};
ghost use Rattle.stock_model.specs.Sums.{quantity_in, quantity_out};
ghost use Rattle.stock_model.specs.Values.{own_line, value_by, share_by};
ghost use Rattle.stock_model.specs.declared.records.Record.{Record};
ghost use Rattle.cost_links.specs.Stocks.{IsAverageOf};
ghost use Rattle.cost_links.specs.Tables.{Held, held_by};
ghost use Rattle.cost_links.specs.Taken.{Taken, taken_of, cost_taken, value_taken, share_taken, held_entered, held_left, held_after, CanBeTaken, IsTakenFrom};

use cost_formulas::average::Average;
use std::sync::ledger::Ledger;
use stock_nums::cause::{Cause, Method};
use stock_nums::entry::{Entry, Worth};
use stock_nums::numbers::{Minor, Qty};
use stock_nums::part::part;
use stock_nums::place::Side;
use stock_nums::steps::Steps;

/// What a movement is worth, and what is held of its item in its warehouse after it.
#[derive(Clone, Copy, Debug, PartialEq, Eq)]
pub struct Valued {
    pub worth: Worth,
    /// At the moving average (IAS 2.27). Nothing where the item is costed first in, first out.
    pub after: Average,
}

/// What a movement takes over from others.
#[derive(Clone, Copy, Debug, PartialEq, Eq)]
pub struct TakenOver {
    /// What is charged to its line, not below 0.
    pub charged: Minor,
    /// How many units of its target are returned before it.
    pub back: Qty,
    /// What is held before it at the moving average (IAS 2.27).
    pub held: Average,
    /// What its units cost first in, first out, or what its source is worth: not below 0.
    pub linked: Minor,
}

/// What the movement is worth, and what is held after it, from what it takes over. It counts one step, and takes no memory.
pub fn value_entry<L: Ledger>(entry: &Entry, taken: &TakenOver, steps: &mut Steps<L>) -> Valued
    requires charged_from_zero { pos 0 ≤ℤ taken.now.charged.0 }
    requires from_zero { pos 0 ≤ℤ taken.now.linked.0 }
    requires taken { CanBeTaken (taken_of taken.now) entry.now }
    ensures value { result.worth.value.0 ≡ value_taken (taken_of taken.now) entry.now entry.now.cause }
    ensures share { result.worth.share.0 ≡ share_taken (taken_of taken.now) entry.now entry.now.cause }
    ensures after { held_by (Some result.after) ≡ held_after (taken_of taken.now) entry.now }
    ensures steps { steps.new ≡ steps.old + 1 }
{
    steps.tick();
    match entry.place.side {
        Side::Enters => value_entering(entry, taken),
        Side::Leaves => value_leaving(entry, taken),
    }
}

/// Where a movement takes over what the rows before it and the journal's records say, it is worth what the replay says,
/// and what is held after it at the moving average is the stock.
pub fn values_are_those_of_the_replay()
    ensures value { (journal : List Record) (before : List Row) (e : Entry) (t : Taken) → IsTakenFrom journal before e t → value_taken t e e.cause ≡ value_by journal before e e.cause }
    ensures share { (journal : List Record) (before : List Row) (e : Entry) (t : Taken) → IsTakenFrom journal before e t → share_taken t e e.cause ≡ share_by journal before e e.cause }
    ensures after { (journal : List Record) (before : List Row) (e : Entry) (t : Taken) → IsTakenFrom journal before e t → AreBounded (value_next journal before e) → quantity_out before (entry_key e) ≤ quantity_in before (entry_key e) → e.method ≡ Method.Average → IsAverageOf (value_next journal before e) (entry_key e) (held_after t e) }
{}

// The same for a movement that enters.
fn value_entering(entry: &Entry, taken: &TakenOver) -> Valued
    requires enters { IsTrue (is_entering entry.now.place.side) }
    requires charged_from_zero { pos 0 ≤ℤ taken.now.charged.0 }
    requires from_zero { pos 0 ≤ℤ taken.now.linked.0 }
    requires taken { CanBeTaken (taken_of taken.now) entry.now }
    ensures value { result.worth.value.0 ≡ value_taken (taken_of taken.now) entry.now entry.now.cause }
    ensures share { result.worth.share.0 ≡ share_taken (taken_of taken.now) entry.now entry.now.cause }
    ensures after { held_by (Some result.after) ≡ held_after (taken_of taken.now) entry.now }
{
    let value = entering_value(entry, taken);
    let share = share_by(entry, taken);
    Valued {
        worth: Worth { value, share },
        after: entered(entry, &taken.held, value),
    }
}

// The same for a movement that leaves.
fn value_leaving(entry: &Entry, taken: &TakenOver) -> Valued
    requires leaves { IsTrue (not (is_entering entry.now.place.side)) }
    requires charged_from_zero { pos 0 ≤ℤ taken.now.charged.0 }
    requires from_zero { pos 0 ≤ℤ taken.now.linked.0 }
    requires taken { CanBeTaken (taken_of taken.now) entry.now }
    ensures value { result.worth.value.0 ≡ value_taken (taken_of taken.now) entry.now entry.now.cause }
    ensures share { result.worth.share.0 ≡ share_taken (taken_of taken.now) entry.now entry.now.cause }
    ensures after { held_by (Some result.after) ≡ held_after (taken_of taken.now) entry.now }
{
    let share = share_by(entry, taken);
    let (value, after) = left(entry, &taken.held, taken.linked);
    Valued {
        worth: Worth { value, share },
        after,
    }
}

// What a movement that enters is worth.
fn entering_value(entry: &Entry, taken: &TakenOver) -> Minor
    requires charged_from_zero { pos 0 ≤ℤ taken.now.charged.0 }
    requires from_zero { pos 0 ≤ℤ taken.now.linked.0 }
    requires taken { CanBeTaken (taken_of taken.now) entry.now }
    ensures { IsTrue (enters_by entry.now.cause) → result.0 ≡ value_taken (taken_of taken.now) entry.now entry.now.cause }
{
    match entry.cause {
        Cause::Receipt { amount } => Minor(amount.0 + taken.charged.0),
        Cause::TransferEnters => taken.linked,
        Cause::CustomerReturn { target: _, issued } => {
            part(taken.linked, taken.back, entry.qty, issued)
        }
        _ => Minor(0),
    }
}

// The landed charges within a receipt's value, or the part of the purchase price of what goes back to a supplier.
fn share_by(entry: &Entry, taken: &TakenOver) -> Minor
    requires charged_from_zero { pos 0 ≤ℤ taken.now.charged.0 }
    requires taken { CanBeTaken (taken_of taken.now) entry.now }
    ensures { result.0 ≡ share_taken (taken_of taken.now) entry.now entry.now.cause }
{
    match entry.cause {
        Cause::Receipt { amount: _ } => taken.charged,
        Cause::SupplierReturn {
            target: _,
            amount,
            received,
        } => part(amount, taken.back, entry.qty, received),
        _ => Minor(0),
    }
}

// What is held after units that enter.
fn entered(entry: &Entry, before: &Average, value: Minor) -> Average
    requires worth { pos 0 ≤ℤ value.0 }
    requires units { entry.now.method ≡ Method.Average → before.now.qty.0 + entry.now.qty.0 ≤ MAX_UNITS }
    requires room { entry.now.method ≡ Method.Average → unsigned_abs before.now.value.0 + unsigned_abs value.0 ≤ MAX_VALUE }
    ensures { held_by (Some result) ≡ held_entered entry.now.method (held_by (Some before.now)) entry.now.qty.0 (unsigned_abs value.0) }
{
    match entry.method {
        Method::Average => {
            let mut held = *before;
            held.add(entry.qty, value);
            held
        }
        Method::Fifo => Average::new(),
    }
}

// What units that leave cost, and what is held after them.
fn left(entry: &Entry, before: &Average, linked: Minor) -> (Minor, Average)
    requires from_zero { pos 0 ≤ℤ linked.0 }
    requires held { entry.now.method ≡ Method.Average → entry.now.qty.0 ≤ before.now.qty.0 }
    ensures cost { result.0.0 ≡ pos (cost_taken entry.now.method (held_by (Some before.now)) (unsigned_abs linked.0) entry.now.qty.0) }
    ensures after { held_by (Some result.1) ≡ held_left entry.now.method (held_by (Some before.now)) entry.now.qty.0 }
{
    match entry.method {
        Method::Average => {
            let mut held = *before;
            let cost = held.take(entry.qty);
            (cost, held)
        }
        Method::Fifo => (linked, Average::new()),
    }
}
