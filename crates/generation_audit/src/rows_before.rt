//! The rows that were found right so far, and what the next movement is due over them.
ghost use Rattle.std.specs.Prelude.{◌≡◌, ◌+◌, ◌^◌, ◌<◌, ◌≤◌, ◌∷◌, ◌++◌, [], not, if◌then◌else◌, IsTrue, IfOk, OnOk};
ghost use Rattle.stock_nums.specs.Causes.{is_entering, enters_by};
ghost use Rattle.stock_nums.specs.LineSums.{number_of};
ghost use Rattle.stock_nums.specs.Targets.{is_same_target};
ghost use Rattle.stock_nums.specs.declared.cause.Target.{Target};
ghost use Rattle.stock_nums.specs.declared.limits.TheConstants.{MAX_VALUE};
ghost use Rattle.stock_model.specs.Bounds.{AreBounded};
ghost use Rattle.stock_model.specs.Sums.{value_of};
ghost use Rattle.stock_model.specs.Returns.{is_return_of};
ghost use Rattle.stock_model.specs.Replay.{valued};
ghost use Rattle.stock_model.specs.Values.{own_line, leaves_by, value_by, share_by};
ghost use Rattle.cost_links.specs.Ready.{IsReady};

use crate::charges::Charges;
use crate::moved_by_key::MovedByKey;
use std::alloc::Global;
use std::marker::Model;
use stock_nums::cause::{Cause, Target};
use stock_nums::entry::{Entry, Row, Worth};
use stock_nums::line_sums::LineSums;
use stock_nums::lines::Lines;
use stock_nums::memory::NoMemory;
use stock_nums::numbers::{Minor, Qty};
use stock_nums::part::part;
use stock_nums::place::Side;

/// Rows, and plain sums over them: of each item in each warehouse, of what left by each line of a voucher, and of the units of it
/// that were returned. Contracts see the list of the rows.
#[derive(Drop)]
pub(crate) struct RowsBefore {
    rows: Lines<Row>,
    moved: MovedByKey,
    costs: LineSums,
    returned: LineSums,
}

impl Model for RowsBefore {
    ghost use Rattle.std.specs.Prelude.{List};
    ghost use Rattle.stock_nums.specs.declared.entry.Row.{Row};
    ghost use Rattle.cost_links.specs.Replayed.{AreSumsOf};
    ghost use Rattle.generation_audit.specs.MovedSums.{AreMovedOf};

    ghost Value = { List Row };

    ghost view = { λ before. before.rows };

    ghost invariant = { λ before. AreSumsOf before.rows before.costs before.returned × AreMovedOf before.rows before.moved };
}

impl RowsBefore {
    /// No row. It takes no memory.
    pub(crate) fn new(alloc: Global) -> RowsBefore
        ensures { result ≡ [] }
    {
        RowsBefore {
            rows: Lines::new(alloc),
            moved: MovedByKey::new(alloc),
            costs: LineSums::new(alloc),
            returned: LineSums::new(alloc),
        }
    }

    /// The rows.
    pub(crate) fn into_rows(self) -> Lines<Row>
        ensures { result ≡ self }
    {
        let RowsBefore {
            rows,
            moved: _,
            costs: _,
            returned: _,
        } = self;
        rows
    }

    /// The rows with one more.
    pub(crate) fn with(self, alloc: Global, row: Row) -> Result<RowsBefore, NoMemory>
        requires { AreBounded (self ++ row ∷ []) }
        ensures { IfOk result (λ before. before ≡ self ++ row ∷ []) }
    {
        let RowsBefore {
            mut rows,
            mut moved,
            mut costs,
            mut returned,
        } = self;
        moved.add(alloc, &row)?;
        add_cost(&mut costs, &row)?;
        add_return(&mut returned, &row.entry)?;
        rows.push(row)?;
        Ok(RowsBefore {
            rows,
            moved,
            costs,
            returned,
        })
    }

    /// What the movement is due: its value and share over the rows, and over what the records charge. It takes no memory.
    pub(crate) fn due(&self, charges: &Charges<'_>, entry: &Entry) -> Worth
        requires { IsReady charges.now.records.now self.now entry.now }
        ensures { result ≡ (valued charges.now.records.now self.now entry.now).worth }
    {
        Worth {
            value: self.value_by(charges, entry),
            share: self.share_by(charges, entry),
        }
    }

    // What the movement is worth.
    fn value_by(&self, charges: &Charges<'_>, entry: &Entry) -> Minor
        requires { IsReady charges.now.records.now self.now entry.now }
        ensures { result.0 ≡ value_by charges.now.records.now self.now entry.now entry.now.cause }
    {
        match entry.place.side {
            Side::Enters => self.value_entering(charges, entry),
            Side::Leaves => self.value_leaving(charges, entry),
        }
    }

    // The same for a movement that leaves: what its units cost.
    fn value_leaving(&self, charges: &Charges<'_>, entry: &Entry) -> Minor
        requires ready { IsReady charges.now.records.now self.now entry.now }
        requires leaves { IsTrue (not (is_entering entry.now.place.side)) }
        ensures { result.0 ≡ value_by charges.now.records.now self.now entry.now entry.now.cause }
    {
        let _records = charges.records;
        self.moved.cost(entry)
    }

    // The same for a movement that enters.
    fn value_entering(&self, charges: &Charges<'_>, entry: &Entry) -> Minor
        requires { IsReady charges.now.records.now self.now entry.now }
        ensures { IsTrue (enters_by entry.now.cause) → result.0 ≡ value_by charges.now.records.now self.now entry.now entry.now.cause }
    {
        match entry.cause {
            Cause::Receipt { amount } => {
                let charged = charges.of(own_line(entry));
                Minor(amount.0 + charged.0)
            }
            Cause::TransferEnters => Minor(self.costs.of(own_line(entry)) as i64),
            Cause::CustomerReturn { target, issued } => part(
                Minor(self.costs.of(target) as i64),
                Qty(self.returned.of(target) as u64),
                entry.qty,
                issued,
            ),
            _ => Minor(0),
        }
    }

    // The landed charges within a receipt's value, or the part of the purchase price of what goes back to a supplier.
    fn share_by(&self, charges: &Charges<'_>, entry: &Entry) -> Minor
        requires { IsReady charges.now.records.now self.now entry.now }
        ensures { result.0 ≡ share_by charges.now.records.now self.now entry.now entry.now.cause }
    {
        match entry.cause {
            Cause::Receipt { amount: _ } => charges.of(own_line(entry)),
            Cause::SupplierReturn {
                target,
                amount,
                received,
            } => part(
                amount,
                Qty(self.returned.of(target) as u64),
                entry.qty,
                received,
            ),
            _ => Minor(0),
        }
    }
}

// The line of a voucher that the movement is of.
fn own_line(entry: &Entry) -> Target
    ensures { result ≡ own_line entry.now }
{
    Target {
        voucher: entry.place.voucher,
        line: entry.place.line,
    }
}

// Adds what a movement that leaves cost to what left by its line.
fn add_cost(costs: &mut LineSums, row: &Row) -> Result<(), NoMemory>
    requires { (line : Target) → number_of costs.old line < 2 ^ 127 }
    ensures { OnOk result ((line : Target) → number_of costs.new line ≡ number_of costs.old line + (if leaves_by line row.now then value_of row.now else 0)) }
{
    match row.entry.place.side {
        Side::Enters => Ok(()),
        Side::Leaves => {
            let value = u128::from(row.worth.value.0.unsigned_abs());
            add_to(costs, own_line(&row.entry), value)
        }
    }
}

// Adds the units of a return to those that were returned of its target.
fn add_return(returned: &mut LineSums, entry: &Entry) -> Result<(), NoMemory>
    requires { (line : Target) → number_of returned.old line < 2 ^ 127 }
    ensures { OnOk result ((line : Target) → number_of returned.new line ≡ number_of returned.old line + (if is_return_of line entry.now.cause then entry.now.qty.0 else 0)) }
{
    match entry.cause {
        Cause::CustomerReturn { target, issued: _ } => {
            add_to(returned, target, u128::from(entry.qty.0))
        }
        Cause::SupplierReturn {
            target,
            amount: _,
            received: _,
        } => add_to(returned, target, u128::from(entry.qty.0)),
        _ => Ok(()),
    }
}

// Adds to the number of the line. For want of memory no number changes.
fn add_to(sums: &mut LineSums, line: Target, number: u128) -> Result<(), NoMemory>
    requires { number_of sums.old line + number < 2 ^ 128 }
    ensures { OnOk result ((other : Target) → number_of sums.new other ≡ number_of sums.old other + (if is_same_target line other then number else 0)) }
{
    sums.reserve(line)?;
    sums.add(line, number);
    Ok(())
}
