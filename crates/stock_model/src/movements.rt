//! The movements that a record makes.
ghost use Rattle.std.specs.Prelude.{◌≡◌, ◌+◌, ◌≤◌, ◌++◌, List, length, slice_get, IsTrue, None, OnOk, IfOk};
ghost use Rattle.std.specs.Option.{option_to_list};
ghost use Rattle.std.specs.List.{flat_map, filter_map, zip};
ghost use Rattle.stock_nums.specs.Causes.{has_amounts_in_range, has_side};
ghost use Rattle.stock_model.specs.declared.records.Record.{Record};
ghost use Rattle.stock_model.specs.Entries.{moved, move_made, found_made, line_made, lines_made, entries};
ghost use Rattle.stock_model.specs.Faults.{voucher_fault};
ghost use Rattle.stock_model.specs.Journals.{AreSound};
ghost use Rattle.stock_model.specs.LineViews.{seen, moves_seen, made_at};
ghost use Rattle.stock_model.specs.VoucherLines.{lines_of, stores_each, moves_of, return_moves, customer_return, supplier_return};

use crate::line_views::{is_sold, line_at, line_count, moment_of};
use crate::names::Names;
use crate::records::Record;
use crate::seen::{LineItem, LineView, Move, Moves};
use crate::target_lines::{coded_item, line_found};
use crate::vouchers::What;
use std::alloc::Global;
use stock_nums::cause::{Cause, Method};
use stock_nums::code::Code;
use stock_nums::entry::Entry;
use stock_nums::limits::MAX_LINES;
use stock_nums::lines::Lines;
use stock_nums::memory::NoMemory;
use stock_nums::moment::Moment;
use stock_nums::numbers::{AccountNo, ItemNo, RecordNo, StoreNo};
use stock_nums::place::{Place, Side};

/// How many movements the record makes where it has no fault of its own: one for each line, and two for a line of a
/// transfer. It takes no memory.
pub fn count(item: &Record) -> usize
    ensures { (journal : List Record) → AreSound journal → voucher_fault journal item.now.what ≡ None → result ≡ length (entries journal item.now) }
{
    line_count(&item.what) * stores_each(&item.what)
}

// How many warehouses each line names.
fn stores_each(what: &What) -> usize
    ensures { result ≡ stores_each what.now }
{
    match what {
        What::Transfer { at: _, lines: _ } => 2,
        _ => 1,
    }
}

/// A line of a voucher that is read in a journal: where its movements stand.
#[derive(Clone, Copy)]
struct Spot {
    voucher: RecordNo,
    at: Moment,
    /// The line's number, from 1.
    line: u32,
}

/// The movements of a record, read as the next one of the journal with these items and warehouses. Its
/// number is the voucher of each. A line whose item or warehouse is unknown makes none.
pub fn entries<N: Names>(
    alloc: Global,
    names: &N,
    number: RecordNo,
    item: &Record,
) -> Result<Lines<Entry>, NoMemory>
    requires { number.0 ≡ length (N.journal names.now) + 1 }
    ensures { IfOk result (λ es. es ≡ entries (N.journal names.now) item.now) }
{
    match moment_of(&item.what) {
        Some(at) => lines_made(alloc, names, number, at, &item.what),
        None => Ok(Lines::new(alloc)),
    }
}

// The movements of all lines of a voucher.
fn lines_made<N: Names>(
    alloc: Global,
    names: &N,
    voucher: RecordNo,
    at: Moment,
    what: &What,
) -> Result<Lines<Entry>, NoMemory>
    requires { length (lines_of what.now) ≤ MAX_LINES }
    ensures { IfOk result (λ es. es ≡ lines_made (N.journal names.now) voucher.0 what.now at) }
{
    let mut entries = Lines::new(alloc);
    for index in 0..line_count(what) {
        let spot = Spot {
            voucher,
            at,
            line: index as u32 + 1,
        };
        push_line_at(names, spot, what, index, &mut entries)?;
    }
    Ok(entries)
}

// Adds the movements of the line at this index, from 0, if there is one.
fn push_line_at<N: Names>(
    names: &N,
    spot: Spot,
    what: &What,
    index: usize,
    entries: &mut Lines<Entry>,
) -> Result<(), NoMemory>
    ensures { OnOk result (entries.new ≡ entries.old ++ made_at (line_made (N.journal names.now) spot.voucher.0 spot.at what.now) spot.line (slice_get (lines_of what.now) index)) }
{
    match line_at(what, index) {
        Some(line) => push_line(names, spot, what, &line, entries),
        None => Ok(()),
    }
}

// Adds the movements of a line, where the line that its item is of and the item are found.
fn push_line<N: Names>(
    names: &N,
    spot: Spot,
    what: &What,
    line: &LineView<'_>,
    entries: &mut Lines<Entry>,
) -> Result<(), NoMemory>
    ensures { OnOk result (entries.new ≡ entries.old ++ line_made (N.journal names.now) spot.voucher.0 spot.at what.now (spot.line, seen line.now)) }
{
    match line_found(names, line) {
        Some(found) => push_found(names, spot, what, line, &found, entries),
        None => Ok(()),
    }
}

// Adds the movements of a line whose item is that of the line found.
fn push_found<N: Names>(
    names: &N,
    spot: Spot,
    what: &What,
    line: &LineView<'_>,
    found: &LineView<'_>,
    entries: &mut Lines<Entry>,
) -> Result<(), NoMemory>
    ensures { OnOk result (entries.new ≡ entries.old ++ found_made (N.journal names.now) spot.voucher.0 spot.at what.now spot.line (seen line.now) (seen found.now)) }
{
    match coded_item(names, found) {
        Some(item) => push_moves(
            names,
            spot,
            line,
            item,
            moves_of(what, line, found),
            entries,
        ),
        None => Ok(()),
    }
}

// Adds the movements of these moves, each into or out of one of the line's warehouses.
fn push_moves<N: Names>(
    names: &N,
    spot: Spot,
    line: &LineView<'_>,
    item: (ItemNo, Method),
    moves: Moves,
    entries: &mut Lines<Entry>,
) -> Result<(), NoMemory>
    ensures { OnOk result (entries.new ≡ entries.old ++ filter_map (move_made (N.journal names.now) spot.voucher.0 spot.at spot.line (seen line.now) item) (zip (moves_seen moves) (seen line.now).stores)) }
{
    match moves {
        Moves::None => Ok(()),
        Moves::One(first) => push_move(names, spot, line, item, first, line.store, entries),
        Moves::Two(first, second) => {
            push_move(names, spot, line, item, first, line.store, entries)?;
            match line.second {
                Some(store) => push_move(names, spot, line, item, second, store, entries),
                None => Ok(()),
            }
        }
    }
}

// Adds the movement of a move into or out of the warehouse with this code, where there is one.
fn push_move<N: Names>(
    names: &N,
    spot: Spot,
    line: &LineView<'_>,
    item: (ItemNo, Method),
    one: Move,
    store: &Code,
    entries: &mut Lines<Entry>,
) -> Result<(), NoMemory>
    ensures { OnOk result (entries.new ≡ entries.old ++ option_to_list (move_made (N.journal names.now) spot.voucher.0 spot.at spot.line (seen line.now) item (one, store.now))) }
{
    match names.store_with(store) {
        Some(store) => entries.push(moved(spot, line, item, &one, store)),
        None => Ok(()),
    }
}

fn moved(
    spot: Spot,
    line: &LineView<'_>,
    item: (ItemNo, Method),
    one: &Move,
    store: (StoreNo, AccountNo),
) -> Entry
    ensures { result ≡ moved spot.voucher.0 spot.at spot.line (seen line.now) item one.now store }
{
    Entry {
        place: Place {
            moment: spot.at,
            voucher: spot.voucher,
            line: spot.line,
            side: one.side,
        },
        item: item.0,
        store: store.0,
        qty: line.qty,
        method: item.1,
        cause: one.cause,
    }
}

// What a line of the voucher moves, where its item is that of the line found.
fn moves_of(what: &What, line: &LineView<'_>, found: &LineView<'_>) -> Moves
    ensures { moves_seen result ≡ moves_of what.now (seen line.now) (seen found.now) }
{
    match what {
        What::Receipt { at: _, lines: _ } => Moves::One(entering(Cause::Receipt {
            amount: line.amount,
        })),
        What::Issue {
            at: _,
            purpose,
            lines: _,
        } => Moves::One(leaving(Cause::Issue {
            sold: is_sold(*purpose),
        })),
        What::Transfer { at: _, lines: _ } => Moves::Two(
            leaving(Cause::TransferLeaves),
            entering(Cause::TransferEnters),
        ),
        What::CustomerReturn { at: _, lines: _ } => customer_return(line, found),
        What::SupplierReturn { at: _, lines: _ } => supplier_return(line, found),
        _ => Moves::None,
    }
}

// Units of the line of an issue that was found come back.
fn customer_return(line: &LineView<'_>, found: &LineView<'_>) -> Moves
    ensures { moves_seen result ≡ return_moves customer_return (seen line.now).item (seen found.now) }
{
    match line.item {
        LineItem::Coded(_) => Moves::None,
        LineItem::OfTarget(named) => Moves::One(entering(Cause::CustomerReturn {
            target: named.target,
            issued: found.qty,
        })),
    }
}

// Units of the line of a receipt that was found go back.
fn supplier_return(line: &LineView<'_>, found: &LineView<'_>) -> Moves
    ensures { moves_seen result ≡ return_moves supplier_return (seen line.now).item (seen found.now) }
{
    match line.item {
        LineItem::Coded(_) => Moves::None,
        LineItem::OfTarget(named) => Moves::One(leaving(Cause::SupplierReturn {
            target: named.target,
            amount: found.amount,
            received: found.qty,
        })),
    }
}

fn entering(cause: Cause) -> Move
    requires amounts { IsTrue (has_amounts_in_range cause) }
    requires sides { IsTrue (has_side cause Side.Enters) }
    ensures side { result.side ≡ Side.Enters }
    ensures cause { result.cause ≡ cause }
{
    Move {
        side: Side::Enters,
        cause,
    }
}

fn leaving(cause: Cause) -> Move
    requires amounts { IsTrue (has_amounts_in_range cause) }
    requires sides { IsTrue (has_side cause Side.Leaves) }
    ensures side { result.side ≡ Side.Leaves }
    ensures cause { result.cause ≡ cause }
{
    Move {
        side: Side::Leaves,
        cause,
    }
}
