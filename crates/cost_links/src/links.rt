//! What is charged to lines of vouchers and returned of them.
ghost use Rattle.std.specs.Prelude.{◌≡◌, ◌+◌, ◌^◌, ◌<◌, ◌≤◌, [], ◌++◌, filter, fold, pos, OnOk, OnErr};
ghost use Rattle.stock_nums.specs.declared.cause.Target.{Target};
ghost use Rattle.stock_nums.specs.declared.limits.TheConstants.{MAX_VALUE};
ghost use Rattle.stock_model.specs.Returns.{returns_of};
ghost use Rattle.cost_links.specs.Charged.{charge_pairs, charged_to};
ghost use Rattle.cost_links.specs.Linked.{charged_of, returns_to, back_of};
ghost use Rattle.cost_links.specs.Sources.{left_by};

use crate::charges::{Charge, add_charges, reserve_lines, subtract_charges};
use crate::returns::Returns;
use std::alloc::Global;
use stock_nums::cause::{Cause, Target};
use stock_nums::entry::Entry;
use stock_nums::line_sums::LineSums;
use stock_nums::memory::NoMemory;
use stock_nums::numbers::{Minor, Qty};

/// What is charged to lines of receipts, and the movements that return units of lines. Contracts see them by `charged_of`
/// and `returns_to`.
#[derive(Drop)]
pub struct Links {
    charges: LineSums,
    returns: Returns,
}

impl Links {
    /// Nothing is charged or returned. It takes no memory.
    pub fn new(alloc: Global) -> Links
        ensures charges { (line : Target) → charged_of result line ≡ 0 }
        ensures returns { (line : Target) → returns_to result line ≡ [] }
    {
        Links {
            charges: LineSums::new(alloc),
            returns: Returns::new(alloc),
        }
    }

    /// Adds charges, and those of the movements that are returns. A refusal changes nothing.
    pub fn add(
        &mut self,
        alloc: Global,
        entries: &[Entry],
        charges: &[Charge],
    ) -> Result<(), NoMemory>
        requires fits { (line : Target) → charged_of self.old line + charged_to line (charge_pairs charges.now) < 2 ^ 128 }
        ensures charges { OnOk result ((line : Target) → charged_of self.new line ≡ charged_of self.old line + charged_to line (charge_pairs charges.now)) }
        ensures returns { OnOk result ((line : Target) → returns_to self.new line ≡ returns_to self.old line ++ filter (returns_of line) entries.now) }
        ensures charges_stay { OnErr result ((line : Target) → charged_of self.new line ≡ charged_of self.old line) }
        ensures returns_stay { OnErr result ((line : Target) → returns_to self.new line ≡ returns_to self.old line) }
    {
        reserve_lines(&mut self.charges, charges)?;
        self.returns.add(alloc, entries)?;
        add_charges(&mut self.charges, charges);
        Ok(())
    }

    /// Takes charges off, and takes those returns out that stand where one of the movements does, which returns units of the
    /// same line. It takes no memory.
    pub fn remove(&mut self, entries: &[Entry], charges: &[Charge])
        requires within { (line : Target) → charged_to line (charge_pairs charges.now) ≤ charged_of self.old line }
        ensures charges { (line : Target) → charged_of self.new line + charged_to line (charge_pairs charges.now) ≡ charged_of self.old line }
        ensures returns { (line : Target) → returns_to self.new line ≡ fold left_by (returns_to self.old line) (filter (returns_of line) entries.now) }
    {
        self.returns.remove(entries);
        subtract_charges(&mut self.charges, charges);
    }

    /// What is charged to the line. It takes no memory.
    pub fn charged(&self, line: Target) -> Minor
        requires { charged_of self.now line ≤ MAX_VALUE }
        ensures { result.0 ≡ pos (charged_of self.now line) }
    {
        Minor(self.charges.of(line) as i64)
    }

    /// The movements that return units of the line, in the order in which they were added. It takes no memory.
    pub fn returns(&self, line: Target) -> &[Entry]
        ensures { result.now ≡ returns_to self.now line }
    {
        self.returns.of(line)
    }

    /// How many units of the movement's target are returned by the movements that come before it in posting order. 0
    /// where it is no return. It takes no memory.
    pub fn returned_before(&self, entry: &Entry) -> Qty
        requires { back_of self.now entry.now < 2 ^ 64 }
        ensures { result.0 ≡ back_of self.now entry.now }
    {
        match entry.cause {
            Cause::CustomerReturn { target, issued: _ } => {
                self.returns.units_before(target, &entry.place)
            }
            Cause::SupplierReturn {
                target,
                amount: _,
                received: _,
            } => self.returns.units_before(target, &entry.place),
            _ => Qty(0),
        }
    }
}
