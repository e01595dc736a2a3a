//! A charge is parted over lines with no minor unit lost, by weights that are not all 0.

use landed_cost::shares::{ShareFault, shares};
use std::alloc::Global;
use std::test::Fail;
use stock_nums::lines::Lines;
use stock_nums::numbers::Minor;

// The shares of a charge by two weights.
fn by_two(alloc: Global, charge: u32, weights: [u32; 2]) -> Result<Lines<Minor>, ShareFault> {
    let [first, second] = weights;
    let weights = [u64::from(first), u64::from(second)];
    shares(alloc, Minor(i64::from(charge)), weights.as_slice())
}

#[test]
fn lose_no_minor_unit(rt: HostRuntime) -> Result<(), Fail> {
    let thirds = shares(rt.alloc(), Minor(100), [1, 1, 1].as_slice())?;
    assert_eq!(rt;
        thirds.as_slice(),
        [Minor(33), Minor(33), Minor(34)].as_slice()
    );
    let by_amount = by_two(rt.alloc(), 900, [5_000, 10_000])?;
    assert_eq!(rt; by_amount.as_slice(), [Minor(300), Minor(600)].as_slice());
    Ok(())
}

#[test]
fn need_a_basis(rt: HostRuntime) {
    let fault = by_two(rt.alloc(), 900, [0, 0]).err();
    assert_eq!(rt; fault, Some(ShareFault::NoBasis));
}
