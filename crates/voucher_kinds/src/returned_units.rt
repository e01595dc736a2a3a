//! The units that vouchers return, counted for each line that they are returned of.
ghost use Rattle.std.specs.Prelude.{◌≡◌, ◌+◌, ◌<◌, ◌≤◌, ◌^◌, ℕ, true, OnOk};
ghost use Rattle.stock_nums.specs.LineSums.{number_of};
ghost use Rattle.stock_nums.specs.declared.cause.Target.{Target};
ghost use Rattle.stock_model.specs.Cancelling.{units_gone};
ghost use Rattle.stock_model.specs.LineViews.{seen};
ghost use Rattle.stock_model.specs.Returns.{units_named};
ghost use Rattle.stock_model.specs.VoucherLines.{VoucherLine, lines_of};
ghost use Rattle.voucher_kinds.specs.ReturnedUnits.{KeepsRoom, HasRoom, line_has_room, has_room_at, units_of_line, units_named_at};

use stock_model::line_views::{line_at, line_count};
use stock_model::masters::record_at;
use stock_model::records::Record;
use stock_model::seen::{LineItem, LineView};
use stock_model::vouchers::What;
use stock_nums::line_sums::LineSums;
use stock_nums::memory::NoMemory;

/// Makes room for the units that the lines of the voucher return. It changes no number.
pub(crate) fn make_room(sums: &mut LineSums, what: &What) -> Result<(), NoMemory>
    ensures same { (target : Target) → number_of sums.new target ≡ number_of sums.old target }
    ensures kept { KeepsRoom sums.old sums.new }
    ensures room { OnOk result ((index : ℕ) → has_room_at sums.new (lines_of what.now) index ≡ true) }
{
    for index in 0..line_count(what) {
        make_room_at(sums, what, index)?;
    }
    Ok(())
}

// Makes room for what the line at this index returns, if there is one.
fn make_room_at(sums: &mut LineSums, what: &What, index: usize) -> Result<(), NoMemory>
    ensures same { (target : Target) → number_of sums.new target ≡ number_of sums.old target }
    ensures kept { KeepsRoom sums.old sums.new }
    ensures room { OnOk result (has_room_at sums.new (lines_of what.now) index ≡ true) }
{
    match line_at(what, index) {
        Some(line) => make_room_for(sums, &line),
        None => Ok(()),
    }
}

fn make_room_for(sums: &mut LineSums, line: &LineView<'_>) -> Result<(), NoMemory>
    ensures same { (target : Target) → number_of sums.new target ≡ number_of sums.old target }
    ensures kept { KeepsRoom sums.old sums.new }
    ensures room { OnOk result (line_has_room sums.new (seen line.now) ≡ true) }
{
    match line.item {
        LineItem::Coded(_) => Ok(()),
        LineItem::OfTarget(named) => sums.reserve(named.target),
    }
}

/// Adds the units that the lines of the voucher return, for which there is room. It takes no memory.
pub(crate) fn add_units(sums: &mut LineSums, what: &What)
    requires room { (index : ℕ) → has_room_at sums.old (lines_of what.now) index ≡ true }
    requires fits { (target : Target) → number_of sums.old target + units_named (lines_of what.now) target < 2 ^ 64 }
    ensures added { (target : Target) → number_of sums.new target ≡ number_of sums.old target + units_named (lines_of what.now) target }
    ensures kept { KeepsRoom sums.old sums.new }
{
    for index in 0..line_count(what) {
        add_units_at(sums, what, index);
    }
}

// Adds what the line at this index returns, if there is one.
fn add_units_at(sums: &mut LineSums, what: &What, index: usize)
    requires room { has_room_at sums.old (lines_of what.now) index ≡ true }
    requires fits { (target : Target) → number_of sums.old target + units_named_at (lines_of what.now) index target < 2 ^ 64 }
    ensures added { (target : Target) → number_of sums.new target ≡ number_of sums.old target + units_named_at (lines_of what.now) index target }
    ensures kept { KeepsRoom sums.old sums.new }
{
    if let Some(line) = line_at(what, index) {
        add_units_of(sums, &line);
    }
}

fn add_units_of(sums: &mut LineSums, line: &LineView<'_>)
    requires room { line_has_room sums.old (seen line.now) ≡ true }
    requires fits { (target : Target) → number_of sums.old target + units_of_line target (seen line.now) < 2 ^ 64 }
    ensures added { (target : Target) → number_of sums.new target ≡ number_of sums.old target + units_of_line target (seen line.now) }
    ensures kept { KeepsRoom sums.old sums.new }
{
    if let LineItem::OfTarget(named) = line.item {
        sums.add(named.target, u128::from(line.qty.0));
    }
}

/// Takes the units that the lines of the voucher return, which were counted, out of the numbers again. It takes no
/// memory.
pub(crate) fn take_units(sums: &mut LineSums, what: &What)
    requires { (target : Target) → units_named (lines_of what.now) target ≤ number_of sums.old target }
    ensures kept { KeepsRoom sums.old sums.new }
    ensures taken { (target : Target) → number_of sums.new target + units_named (lines_of what.now) target ≡ number_of sums.old target }
{
    for index in 0..line_count(what) {
        take_units_at(sums, what, index);
    }
}

// Takes what the line at this index returns, if there is one.
fn take_units_at(sums: &mut LineSums, what: &What, index: usize)
    requires { (target : Target) → units_named_at (lines_of what.now) index target ≤ number_of sums.old target }
    ensures kept { KeepsRoom sums.old sums.new }
    ensures taken { (target : Target) → number_of sums.new target + units_named_at (lines_of what.now) index target ≡ number_of sums.old target }
{
    if let Some(line) = line_at(what, index) {
        take_units_of(sums, &line);
    }
}

fn take_units_of(sums: &mut LineSums, line: &LineView<'_>)
    requires { (target : Target) → units_of_line target (seen line.now) ≤ number_of sums.old target }
    ensures kept { KeepsRoom sums.old sums.new }
    ensures taken { (target : Target) → number_of sums.new target + units_of_line target (seen line.now) ≡ number_of sums.old target }
{
    if let LineItem::OfTarget(named) = line.item {
        sums.subtract(named.target, u128::from(line.qty.0));
    }
}

/// Takes the units that a return had which the voucher takes back, and which were counted, out of the numbers. It takes no
/// memory.
pub(crate) fn take_cancelled(sums: &mut LineSums, records: &[Record], what: &What)
    requires { (target : Target) → units_gone records.now what.now target ≤ number_of sums.old target }
    ensures kept { KeepsRoom sums.old sums.new }
    ensures taken { (target : Target) → number_of sums.new target + units_gone records.now what.now target ≡ number_of sums.old target }
{
    if let What::Cancel { target } = what {
        if let Some(record) = record_at(records, *target) {
            take_units(sums, &record.what);
        }
    }
}

/// Counts the units again that a return has which the voucher took back. It takes no memory.
pub(crate) fn put_cancelled(sums: &mut LineSums, records: &[Record], what: &What)
    requires room { HasRoom records.now sums.old }
    requires fits { (target : Target) → number_of sums.old target + units_gone records.now what.now target < 2 ^ 64 }
    ensures kept { KeepsRoom sums.old sums.new }
    ensures added { (target : Target) → number_of sums.new target ≡ number_of sums.old target + units_gone records.now what.now target }
{
    if let What::Cancel { target } = what {
        if let Some(record) = record_at(records, *target) {
            add_units(sums, &record.what);
        }
    }
}
