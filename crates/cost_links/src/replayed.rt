//! The movements that were valued so far, and what later ones take over from them.
ghost use Rattle.std.specs.Prelude.{◌≡◌, ◌+◌, ◌^◌, ◌<◌, ◌∷◌, ◌++◌, [], not, if◌then◌else◌, IsTrue, OnOk, IfOk};
ghost use Rattle.stock_nums.specs.Causes.{is_entering, enters_by};
ghost use Rattle.stock_nums.specs.LineSums.{number_of};
ghost use Rattle.stock_nums.specs.declared.cause.Target.{Target};
ghost use Rattle.stock_model.specs.Replay.{value_next};
ghost use Rattle.stock_model.specs.Returns.{is_return_of};
ghost use Rattle.stock_model.specs.Values.{own_line, value_by, share_by};
ghost use Rattle.cost_links.specs.Ready.{IsReady};

use crate::charges::Charges;
use crate::stocks::Stocks;
use crate::sums::{add_to, amount};
use std::alloc::Global;
use std::marker::Model;
use stock_nums::cause::{Cause, Target};
use stock_nums::entry::{Entry, Row, Worth};
use stock_nums::line_sums::LineSums;
use stock_nums::lines::Lines;
use stock_nums::memory::NoMemory;
use stock_nums::numbers::{Minor, Qty};
use stock_nums::part::part;
use stock_nums::place::Side;

/// The rows of the movements that were valued so far. What the next one takes over from them is kept: what is held,
/// what left by each line of a voucher cost, and how many units of it were returned. Contracts see the list of the
/// rows.
#[derive(Drop)]
pub(crate) struct Replayed {
    stocks: Stocks,
    costs: LineSums,
    returned: LineSums,
}

impl Model for Replayed {
    ghost use Rattle.std.specs.Prelude.{List};
    ghost use Rattle.stock_nums.specs.declared.entry.Row.{Row};
    ghost use Rattle.cost_links.specs.Replayed.{AreSumsOf};

    ghost Value = { List Row };

    ghost view = { λ replayed. replayed.stocks };

    ghost invariant = { λ replayed. AreSumsOf replayed.stocks replayed.costs replayed.returned };
}

impl Replayed {
    /// No movement. It takes no memory.
    pub(crate) fn new(alloc: Global) -> Replayed
        ensures { result ≡ [] }
    {
        Replayed {
            stocks: Stocks::new(alloc),
            costs: LineSums::new(alloc),
            returned: LineSums::new(alloc),
        }
    }

    /// The rows.
    pub(crate) fn into_rows(self) -> Lines<Row>
        ensures { result ≡ self }
    {
        let Replayed {
            stocks,
            costs: _,
            returned: _,
        } = self;
        stocks.into_rows()
    }

    /// The rows with one more: the movement, valued from those before it and from what the records charge.
    pub(crate) fn with(
        self,
        alloc: Global,
        charges: &Charges<'_>,
        entry: &Entry,
    ) -> Result<Replayed, NoMemory>
        requires { IsReady charges.now.records.now self entry.now }
        ensures { IfOk result (λ replayed. replayed ≡ value_next charges.now.records.now self entry.now) }
    {
        match entry.place.side {
            Side::Enters => self.with_entered(alloc, charges, entry),
            Side::Leaves => self.with_left(charges, entry),
        }
    }

    // The same for a movement that enters.
    fn with_entered(
        self,
        alloc: Global,
        charges: &Charges<'_>,
        entry: &Entry,
    ) -> Result<Replayed, NoMemory>
        requires enters { IsTrue (is_entering entry.now.place.side) }
        requires ready { IsReady charges.now.records.now self entry.now }
        ensures { IfOk result (λ replayed. replayed ≡ value_next charges.now.records.now self entry.now) }
    {
        let value = self.value_by(charges, entry);
        let share = self.share_by(charges, entry);
        let Replayed {
            stocks,
            costs,
            mut returned,
        } = self;
        let row = Row {
            entry: *entry,
            worth: Worth { value, share },
        };
        let stocks = stocks.enter(alloc, row)?;
        add_return(&mut returned, entry)?;
        Ok(Replayed {
            stocks,
            costs,
            returned,
        })
    }

    // The same for a movement that leaves.
    fn with_left(self, charges: &Charges<'_>, entry: &Entry) -> Result<Replayed, NoMemory>
        requires leaves { IsTrue (not (is_entering entry.now.place.side)) }
        requires ready { IsReady charges.now.records.now self entry.now }
        ensures { IfOk result (λ replayed. replayed ≡ value_next charges.now.records.now self entry.now) }
    {
        let share = self.share_by(charges, entry);
        let Replayed {
            stocks,
            mut costs,
            mut returned,
        } = self;
        let (stocks, cost) = stocks.leave(entry, share)?;
        add_to(&mut costs, own_line(entry), amount(cost))?;
        add_return(&mut returned, entry)?;
        Ok(Replayed {
            stocks,
            costs,
            returned,
        })
    }

    // What a movement that enters is worth.
    fn value_by(&self, charges: &Charges<'_>, entry: &Entry) -> Minor
        requires { IsReady charges.now.records.now self.now entry.now }
        ensures { IsTrue (enters_by entry.now.cause) → result.0 ≡ value_by charges.now.records.now self.now entry.now entry.now.cause }
    {
        match entry.cause {
            Cause::Receipt { amount } => Minor(amount.0 + charges.of(own_line(entry)) as i64),
            Cause::TransferEnters => Minor(self.costs.of(own_line(entry)) as i64),
            Cause::CustomerReturn { target, issued } => part(
                Minor(self.costs.of(target) as i64),
                Qty(self.returned.of(target) as u64),
                entry.qty,
                issued,
            ),
            _ => Minor(0),
        }
    }

    // The landed charges within a receipt's value, or the part of the purchase price of what goes back to a supplier.
    fn share_by(&self, charges: &Charges<'_>, entry: &Entry) -> Minor
        requires { IsReady charges.now.records.now self.now entry.now }
        ensures { result.0 ≡ share_by charges.now.records.now self.now entry.now entry.now.cause }
    {
        match entry.cause {
            Cause::Receipt { amount: _ } => Minor(charges.of(own_line(entry)) as i64),
            Cause::SupplierReturn {
                target,
                amount,
                received,
            } => part(
                amount,
                Qty(self.returned.of(target) as u64),
                entry.qty,
                received,
            ),
            _ => Minor(0),
        }
    }
}

// The line of a voucher that the movement is of.
fn own_line(entry: &Entry) -> Target
    ensures { result ≡ own_line entry.now }
{
    Target {
        voucher: entry.place.voucher,
        line: entry.place.line,
    }
}

// Adds the units of a return to those that were returned of its target.
fn add_return(returned: &mut LineSums, entry: &Entry) -> Result<(), NoMemory>
    requires { (line : Target) → number_of returned.old line < 2 ^ 127 }
    ensures { OnOk result ((line : Target) → number_of returned.new line ≡ number_of returned.old line + (if is_return_of line entry.now.cause then entry.now.qty.0 else 0)) }
{
    match entry.cause {
        Cause::CustomerReturn { target, issued: _ } => {
            add_to(returned, target, u128::from(entry.qty.0))
        }
        Cause::SupplierReturn {
            target,
            amount: _,
            received: _,
        } => add_to(returned, target, u128::from(entry.qty.0)),
        _ => Ok(()),
    }
}
