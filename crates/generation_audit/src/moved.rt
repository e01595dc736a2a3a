//! Plain sums over the rows of an item in a warehouse.
ghost use Rattle.std.specs.Prelude.{◌≡◌, ◌+◌, ◌-◌, ◌^◌, ◌<◌, ◌≤◌, true, pos, not, length, IsTrue, unsigned_abs, OnOk};
ghost use Rattle.std.specs.List.{list_all};
ghost use Rattle.stock_nums.specs.Causes.{is_entering};
ghost use Rattle.stock_nums.specs.FirstIn.{first_cost};
ghost use Rattle.stock_nums.specs.Part.{part};
ghost use Rattle.stock_nums.specs.declared.limits.TheConstants.{MAX_ENTRIES, MAX_UNITS, MAX_VALUE};
ghost use Rattle.stock_model.specs.Bounds.{has_value_in_range};
ghost use Rattle.stock_model.specs.Sums.{units_of, value_of};
ghost use Rattle.generation_audit.specs.KeySums.{AreGone, nothing, with_row, cost_of, HasRoom, HasCost};

use std::alloc::Global;
use std::marker::Model;
use stock_nums::cause::Method;
use stock_nums::entry::Row;
use stock_nums::half_up::half_up;
use stock_nums::lines::Lines;
use stock_nums::memory::NoMemory;
use stock_nums::numbers::{Minor, Qty};
use stock_nums::part::part;
use stock_nums::place::Side;

/// What entered and left of an item in a warehouse: the rows that entered, in their order, and the sums of both sides. Contracts see
/// these.
#[derive(Drop)]
pub(crate) struct Moved {
    entered: Lines<Row>,
    units_in: u128,
    units_out: u128,
    value_in: u128,
    value_out: u128,
    // How many of the rows that entered are gone as a whole, and how many units they had: no cost looks at them again.
    gone: usize,
    gone_units: u128,
}

impl Model for Moved {
    ghost use Rattle.generation_audit.specs.KeySums.{Sums, AreGone};

    ghost Value = { Sums };

    ghost view = { λ moved. record {
      entered = moved.entered;
      units_in = moved.units_in;
      units_out = moved.units_out;
      value_in = moved.value_in;
      value_out = moved.value_out;
    } };

    ghost invariant = { λ moved. AreGone moved.entered moved.gone moved.gone_units moved.units_out };
}

impl Moved {
    /// Nothing. It takes no memory.
    pub(crate) fn new(alloc: Global) -> Moved
        ensures { result ≡ nothing }
    {
        Moved {
            entered: Lines::new(alloc),
            units_in: 0,
            units_out: 0,
            value_in: 0,
            value_out: 0,
            gone: 0,
            gone_units: 0,
        }
    }

    /// Adds a row on its side.
    pub(crate) fn add(&mut self, row: &Row) -> Result<(), NoMemory>
        requires { HasRoom self.old row.now }
        ensures { OnOk result (self.new ≡ with_row self.old row.now) }
    {
        match row.entry.place.side {
            Side::Enters => self.enter(row),
            Side::Leaves => {
                self.leave(row);
                Ok(())
            }
        }
    }

    // The same for a row that enters.
    fn enter(&mut self, row: &Row) -> Result<(), NoMemory>
        requires enters { IsTrue (is_entering row.now.entry.place.side) }
        requires room { HasRoom self.old row.now }
        ensures { OnOk result (self.new ≡ with_row self.old row.now) }
    {
        self.entered.push(*row)?;
        self.units_in += u128::from(row.entry.qty.0);
        self.value_in += u128::from(row.worth.value.0.unsigned_abs());
        Ok(())
    }

    // The same for a row that leaves.
    fn leave(&mut self, row: &Row)
        requires leaves { IsTrue (not (is_entering row.now.entry.place.side)) }
        requires room { HasRoom self.old row.now }
        ensures { self.new ≡ with_row self.old row.now }
    {
        self.units_out += u128::from(row.entry.qty.0);
        self.value_out += u128::from(row.worth.value.0.unsigned_abs());
        let entered = self.entered.as_slice();
        let (gone, gone_units) = gone_of(entered, self.gone, self.gone_units, self.units_out);
        self.gone = gone;
        self.gone_units = gone_units;
    }

    /// What the next so many units cost by the formula. It takes no memory.
    pub(crate) fn cost(&self, method: Method, qty: Qty) -> Minor
        requires { HasCost method self.now qty.0 }
        ensures { result.0 ≡ pos (cost_of method self.now qty.0) }
    {
        match method {
            Method::Fifo => self.cost_first(qty),
            Method::Average => self.cost_at_average(qty),
        }
    }

    // What they cost first in, first out: what so many more of the units that entered cost than those that left did. The rows that
    // are gone as a whole are within both.
    fn cost_first(&self, qty: Qty) -> Minor
        requires { HasCost Method.Fifo self.now qty.0 }
        ensures { result.0 ≡ pos (cost_of Method.Fifo self.now qty.0) }
    {
        let entered = self.entered.as_slice();
        let rest = &entered[self.gone..];
        let taken = self.units_out - self.gone_units;
        let with = first_cost(rest, taken + u128::from(qty.0));
        let without = first_cost(rest, taken);
        minor(with - without)
    }

    // What they cost at the moving average of what is held.
    fn cost_at_average(&self, qty: Qty) -> Minor
        requires { HasCost Method.Average self.now qty.0 }
        ensures { result.0 ≡ pos (cost_of Method.Average self.now qty.0) }
    {
        let value = Minor((self.value_in - self.value_out) as i64);
        let units = Qty((self.units_in - self.units_out) as u64);
        half_up(value, qty, units)
    }
}

// How many of the rows that entered are gone as a whole where so many units left, and their units, from how many were before.
fn gone_of(entered: &[Row], before: usize, before_units: u128, out: u128) -> (usize, u128)
    requires small { out < 2 ^ 127 }
    requires before { AreGone entered.now before before_units out }
    ensures { AreGone entered.now result.0 result.1 out }
{
    let mut gone = before;
    let mut units = before_units;
    while gone < entered.len() {
        let own = u128::from(entered[gone].entry.qty.0);
        if units + own > out {
            return (gone, units);
        }
        units += own;
        gone += 1;
    }
    (gone, units)
}

// What the first so many units of these rows cost: whole rows in their order, and a part of the next.
fn first_cost(rows: &[Row], units: u128) -> u128
    requires few { length rows.now ≤ MAX_ENTRIES }
    requires small { list_all has_value_in_range rows.now ≡ true }
    ensures { result ≡ first_cost units_of value_of rows.now units }
{
    let mut rest = units;
    let mut sum = 0;
    for row in rows {
        let own = u128::from(row.entry.qty.0);
        if own > rest {
            return sum + part_of(row, rest);
        }
        sum += u128::from(row.worth.value.0.unsigned_abs());
        rest -= own;
    }
    sum
}

// So many minor units.
fn minor(amount: u128) -> Minor
    requires { amount ≤ MAX_VALUE }
    ensures { result.0 ≡ pos amount }
{
    Minor(amount as i64)
}

// What the first so many of a row's units cost, which are not all of them.
fn part_of(row: &Row, units: u128) -> u128
    requires within { units < units_of row.now }
    requires small { IsTrue (has_value_in_range row.now) }
    ensures cost { result ≡ part (value_of row.now) 0 units (units_of row.now) }
    ensures bound { result ≤ MAX_VALUE }
{
    let cost = part(row.worth.value, Qty(0), Qty(units as u64), row.entry.qty);
    u128::from(cost.0.unsigned_abs())
}
