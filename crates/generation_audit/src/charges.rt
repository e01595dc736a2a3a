//! What the landed vouchers of a journal charge to lines of receipts (IAS 2.10 and 11).
ghost use Rattle.std.specs.Prelude.{◌≡◌, ◌^◌, ◌<◌, ◌≤◌, ◌++◌, List, [], length, map, not, pos, if◌then◌else◌, unsigned_abs, IsTrue, OnOk, IfOk};
ghost use Rattle.std.specs.List.{zip};
ghost use Rattle.stock_nums.specs.Quantities.{is_line_amount};
ghost use Rattle.stock_nums.specs.Shares.{shares};
ghost use Rattle.stock_nums.specs.declared.cause.Target.{Target};
ghost use Rattle.stock_nums.specs.declared.limits.TheConstants.{MAX_LINES, MAX_VALUE};
ghost use Rattle.stock_model.specs.LandedCost.{added, all_charged, charged, weights};
ghost use Rattle.stock_model.specs.Entries.{is_live};
ghost use Rattle.stock_model.specs.Limits.{is_within_limits};
ghost use Rattle.stock_model.specs.declared.records.Record.{Record};
ghost use Rattle.cost_links.specs.Charged.{amount, charge_pairs, with_nothing};
ghost use Rattle.cost_links.specs.Linked.{charged_of};

use cost_links::charges::Charge;
use cost_links::links::Links;
use landed_cost::shares::{ShareFault, shares};
use std::alloc::Global;
use stock_model::cancelling::is_live;
use stock_model::landed_weights::weight;
use stock_model::names::Listed;
use stock_model::records::Record;
use stock_model::vouchers::{Basis, What};
use stock_nums::cause::Target;
use stock_nums::lines::Lines;
use stock_nums::memory::NoMemory;
use stock_nums::numbers::{Minor, RecordNo};

/// The records of a journal, and what those in force charge to each line of a receipt.
#[derive(Drop)]
pub(crate) struct Charges<'a> {
    pub(crate) records: &'a [Record],
    links: Links,
    ghost stands: { (line : Target) → charged_of links line ≡ added records.now line },
}

impl<'a> Charges<'a> {
    /// What the records in force charge.
    pub(crate) fn new(alloc: Global, records: &'a [Record]) -> Result<Charges<'a>, NoMemory>
        requires { length records.now < 2 ^ 32 }
        ensures { IfOk result (λ charges. charges.records.now ≡ records.now) }
    {
        let charges = live_charges(alloc, records)?;
        let mut links = Links::new(alloc);
        links.add(alloc, &[], charges.as_slice())?;
        Ok(Charges { records, links })
    }

    /// What all vouchers in force charge to the line, whenever they were posted.
    pub(crate) fn of(&self, line: Target) -> Minor
        requires { added self.now.records.now line ≤ MAX_VALUE }
        ensures { result.0 ≡ pos (added self.now.records.now line) }
    {
        self.links.charged(line)
    }
}

// What the records that are in force charge, voucher by voucher: a charge for each line that a voucher names.
fn live_charges(alloc: Global, records: &[Record]) -> Result<Lines<Charge>, NoMemory>
    requires { length records.now < 2 ^ 32 }
    ensures { IfOk result (λ charges. charge_pairs charges ≡ all_charged records.now) }
{
    let mut charges = Lines::new(alloc);
    for (index, record) in records.iter().enumerate() {
        let number = RecordNo(index as u32 + 1);
        push_live(&mut charges, alloc, records, number, &record.what)?;
    }
    Ok(charges)
}

// Adds what the record with this number says that it charges, where it is in force. Only of a charge is that asked, as it goes
// over all later records.
fn push_live(
    charges: &mut Lines<Charge>,
    alloc: Global,
    records: &[Record],
    number: RecordNo,
    what: &What,
) -> Result<(), NoMemory>
    requires records { length records.now < 2 ^ 32 }
    requires limits { IsTrue (is_within_limits what.now) }
    ensures { OnOk result (charge_pairs charges.new
        ≡ charge_pairs charges.old ++ (if is_live records.now number.0 then charged records.now what.now else [])) }
{
    if !is_charge(what) || !is_live(records, number) {
        return Ok(());
    }
    push_charged(charges, alloc, records, what)
}

fn is_charge(what: &What) -> bool
    ensures { IsTrue (not result) → (journal : List Record) → charged journal what.now ≡ [] }
{
    matches!(
        what,
        What::Landed {
            charge: _,
            basis: _,
            targets: _
        }
    )
}

// Adds what a voucher charges at the end.
fn push_charged(
    charges: &mut Lines<Charge>,
    alloc: Global,
    records: &[Record],
    what: &What,
) -> Result<(), NoMemory>
    requires records { length records.now < 2 ^ 32 }
    requires limits { IsTrue (is_within_limits what.now) }
    ensures { OnOk result (charge_pairs charges.new ≡ charge_pairs charges.old ++ charged records.now what.now) }
{
    match what {
        What::Landed {
            charge,
            basis,
            targets,
        } => push_charge(charges, alloc, records, *charge, *basis, targets.as_slice()),
        _ => Ok(()),
    }
}

// Adds the shares of a charge that is parted over these lines. Where there is no basis each is 0.
fn push_charge(
    charges: &mut Lines<Charge>,
    alloc: Global,
    records: &[Record],
    charge: Minor,
    basis: Basis,
    targets: &[Target],
) -> Result<(), NoMemory>
    requires records { length records.now < 2 ^ 32 }
    requires charge { IsTrue (is_line_amount charge.0) }
    requires targets { length targets.now ≤ MAX_LINES }
    ensures { OnOk result (charge_pairs charges.new
        ≡ charge_pairs charges.old ++ zip targets.now (shares (unsigned_abs charge.0) (weights records.now basis targets.now))) }
{
    let weights = weights_of(alloc, records, basis, targets)?;
    match shares(alloc, charge, weights.as_slice()) {
        Ok(parts) => push_shares(charges, targets, parts.as_slice()),
        Err(ShareFault::NoBasis) => push_nothing(charges, targets),
        Err(ShareFault::NoMemory) => Err(NoMemory),
    }
}

// The weights of the lines by the basis.
fn weights_of(
    alloc: Global,
    records: &[Record],
    basis: Basis,
    targets: &[Target],
) -> Result<Lines<u64>, NoMemory>
    requires { length records.now < 2 ^ 32 }
    ensures { IfOk result (λ found. found ≡ weights records.now basis targets.now) }
{
    let names = Listed { records };
    let mut found = Lines::new(alloc);
    for target in targets {
        found.push(weight(&names, basis, target))?;
    }
    Ok(found)
}

// Adds a share for each of the lines.
fn push_shares(
    charges: &mut Lines<Charge>,
    targets: &[Target],
    parts: &[Minor],
) -> Result<(), NoMemory>
    requires count { length parts.now ≡ length targets.now }
    ensures { OnOk result (charge_pairs charges.new ≡ charge_pairs charges.old ++ zip targets.now (map amount parts.now)) }
{
    for (index, target) in targets.iter().enumerate() {
        let amount = parts[index];
        charges.push(Charge {
            line: *target,
            amount,
        })?;
    }
    Ok(())
}

// Adds a share of nothing for each of the lines.
fn push_nothing(charges: &mut Lines<Charge>, targets: &[Target]) -> Result<(), NoMemory>
    ensures { OnOk result (charge_pairs charges.new ≡ charge_pairs charges.old ++ map with_nothing targets.now) }
{
    for target in targets {
        charges.push(Charge {
            line: *target,
            amount: Minor(0),
        })?;
    }
    Ok(())
}
