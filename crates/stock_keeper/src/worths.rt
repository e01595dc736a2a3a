//! Whether worths stand in order, and how they are changed: those that are put in, and those that are gone.
ghost use Rattle.std.specs.Prelude.{◌≡◌, ◌↔◌, IsTrue, IfOk, OnOk, fold};
ghost use Rattle.stock_keeper.specs.Worths.{AreInOrder, is_spot_before, is_same_spot, is_among, put, without, changed_worths};

use crate::changes::{Changes, SpotWorth};
use std::alloc::Global;
use stock_nums::memory::NoMemory;
use stock_nums::place::Spot;

/// Whether the worths stand by record, line and side, each spot once.
pub fn are_in_order(worths: &[SpotWorth]) -> bool
    ensures { IsTrue result ↔ AreInOrder worths.now }
{
    worths.is_sorted_by(|a, b| is_before(&a.spot, &b.spot))
}

/// The worths with these changes.
pub(crate) fn changed(
    alloc: Global,
    worths: &[SpotWorth],
    changes: &Changes,
) -> Result<Vec<SpotWorth>, NoMemory>
    requires { AreInOrder worths.now }
    ensures made { IfOk result (λ made. made.items ≡ changed_worths changes.now worths.now) }
    ensures in_order { IfOk result (λ made. AreInOrder made.items) }
{
    let mut made = worths.to_vec(alloc)?;
    put_all(&mut made, changes.rows.as_slice())?;
    remove_all(&mut made, changes.gone.as_slice());
    Ok(made)
}

// Puts the worths in at their spots, one after the other.
fn put_all(worths: &mut Vec<SpotWorth>, rows: &[SpotWorth]) -> Result<(), NoMemory>
    requires { AreInOrder worths.old.items }
    ensures all { OnOk result (worths.new.items ≡ fold put worths.old.items rows.now) }
    ensures in_order { OnOk result (AreInOrder worths.new.items) }
{
    for row in rows {
        put_one(worths, row)?;
    }
    Ok(())
}

// Puts a worth in at its spot, in place of one that stands there.
fn put_one(worths: &mut Vec<SpotWorth>, row: &SpotWorth) -> Result<(), NoMemory>
    requires { AreInOrder worths.old.items }
    ensures put { OnOk result (worths.new.items ≡ put worths.old.items row.now) }
    ensures in_order { OnOk result (AreInOrder worths.new.items) }
{
    let index = worths.partition_point(|other| is_before(&other.spot, &row.spot));
    if index < worths.len() && is_same(&worths[index].spot, &row.spot) {
        worths[index] = *row;
    } else {
        worths.insert(index, *row)?;
    }
    Ok(())
}

// Takes out the worths at these spots.
fn remove_all(worths: &mut Vec<SpotWorth>, spots: &[Spot])
    requires { AreInOrder worths.old.items }
    ensures rest { worths.new.items ≡ without spots.now worths.old.items }
    ensures in_order { AreInOrder worths.new.items }
{
    worths.retain(|row| !is_among(spots, &row.spot));
}

// Whether the spot is one of these.
fn is_among(spots: &[Spot], spot: &Spot) -> bool
    ensures { result ≡ is_among spots.now spot.now }
{
    spots.iter().any(|other| is_same(other, spot))
}

// Whether the first spot comes before the second.
fn is_before(a: &Spot, b: &Spot) -> bool
    ensures { result ≡ is_spot_before a.now b.now }
{
    a < b
}

// Whether the two are one spot.
fn is_same(a: &Spot, b: &Spot) -> bool
    ensures { result ≡ is_same_spot a.now b.now }
{
    a == b
}
