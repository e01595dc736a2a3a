//! The first spot at which stored worths differ from replayed ones.
ghost use Rattle.std.specs.Prelude.{◌≡◌, ◌↔◌, map, IfOk, IfSome, Some, None, IsTrue};
ghost use Rattle.stock_keeper.specs.Worths.{AreInOrder, is_spot_before};
ghost use Rattle.kept_tables.specs.Differences.{worth_at, entry_worth, IsFirstDifference, IsTold};
ghost use Rattle.kept_tables.specs.TablesOf.{worths_of};

use crate::publishing::spot_worth;
use shared_list::blocks::SharedBlocks;
use std::alloc::Global;
use std::collections::BTreeMap;
use stock_keeper::changes::SpotWorth;
use stock_nums::entry::{Row, Worth};
use stock_nums::memory::NoMemory;
use stock_nums::place::Spot;

/// A spot at which what is stored is not what the replay gives.
#[derive(Clone, Copy, Debug, PartialEq, Eq)]
pub struct Difference {
    pub spot: Spot,
    /// None where nothing is stored there.
    pub stored: Option<Worth>,
    /// None where the replay has no movement there.
    pub replayed: Option<Worth>,
}

/// The first spot, by record, line and side, at which the stored worths are not those of the rows. None exactly where all are
/// the same. The only error is want of memory.
pub fn first_difference(
    alloc: Global,
    stored: &[SpotWorth],
    rows: &SharedBlocks<Row>,
) -> Result<Option<Difference>, NoMemory>
    requires { AreInOrder stored.now }
    ensures first { IfOk result (λ found. IfSome found (λ d. IsFirstDifference stored.now (worths_of rows.now) d.spot)) }
    ensures stored { IfOk result (λ found. IfSome found (λ d. d.stored ≡ worth_at stored.now d.spot)) }
    ensures replayed { IfOk result (λ found. IfSome found (λ d. d.replayed ≡ worth_at (worths_of rows.now) d.spot)) }
    ensures same { IfOk result (λ found. found ≡ None → stored.now ≡ worths_of rows.now) }
{
    let replayed = worths_of(alloc, rows)?;
    Ok(first_apart(stored, replayed.as_slice()))
}

// What the movements are worth, by record, line and side.
fn worths_of(alloc: Global, rows: &SharedBlocks<Row>) -> Result<Vec<SpotWorth>, NoMemory>
    ensures { IfOk result (λ worths. worths.items ≡ worths_of rows.now) }
{
    let by_spot = worths_by_spot(alloc, rows)?;
    let mut worths = Vec::new(alloc);
    for (spot, worth) in by_spot {
        worths.push(SpotWorth { spot, worth })?;
    }
    Ok(worths)
}

// The same in a map, so that a row of an early record among later ones takes little time. Of two rows at one spot the later
// counts.
fn worths_by_spot(
    alloc: Global,
    rows: &SharedBlocks<Row>,
) -> Result<BTreeMap<Spot, Worth>, NoMemory>
    ensures { IfOk result (λ by_spot. map entry_worth by_spot.entries ≡ worths_of rows.now) }
{
    let mut by_spot = BTreeMap::new(alloc);
    for row in rows.items() {
        let own = spot_worth(row);
        by_spot.insert(own.spot, own.worth)?;
    }
    Ok(by_spot)
}

// The first difference of worths that stand in order.
fn first_apart(stored: &[SpotWorth], replayed: &[SpotWorth]) -> Option<Difference>
    requires stored { AreInOrder stored.now }
    requires replayed { AreInOrder replayed.now }
    ensures { IsTold stored.now replayed.now result }
{
    let mut index = 0;
    while index < stored.len() && index < replayed.len() {
        let kept = stored[index];
        let made = replayed[index];
        if is_before(&kept.spot, &made.spot) {
            return Some(stored_alone(&kept));
        }
        if is_before(&made.spot, &kept.spot) {
            return Some(replayed_alone(&made));
        }
        if !is_same_worth(&kept.worth, &made.worth) {
            return Some(changed(&kept, &made));
        }
        index += 1;
    }
    if index < stored.len() {
        return Some(stored_alone(&stored[index]));
    }
    if index < replayed.len() {
        return Some(replayed_alone(&replayed[index]));
    }
    None
}

// A worth is stored where the replay has no movement.
fn stored_alone(kept: &SpotWorth) -> Difference
    ensures { result ≡ record { spot = kept.now.spot; stored = Some kept.now.worth; replayed = None } }
{
    Difference {
        spot: kept.spot,
        stored: Some(kept.worth),
        replayed: None,
    }
}

// Nothing is stored where the replay has a movement.
fn replayed_alone(made: &SpotWorth) -> Difference
    ensures { result ≡ record { spot = made.now.spot; stored = None; replayed = Some made.now.worth } }
{
    Difference {
        spot: made.spot,
        stored: None,
        replayed: Some(made.worth),
    }
}

// Another worth is stored than the replay gives at the spot.
fn changed(kept: &SpotWorth, made: &SpotWorth) -> Difference
    ensures { result ≡ record { spot = kept.now.spot; stored = Some kept.now.worth; replayed = Some made.now.worth } }
{
    Difference {
        spot: kept.spot,
        stored: Some(kept.worth),
        replayed: Some(made.worth),
    }
}

// Whether the first spot comes before the second.
fn is_before(a: &Spot, b: &Spot) -> bool
    ensures { result ≡ is_spot_before a.now b.now }
{
    a < b
}

// Whether the two are one worth.
fn is_same_worth(a: &Worth, b: &Worth) -> bool
    ensures { IsTrue result ↔ (a.now ≡ b.now) }
{
    a == b
}
