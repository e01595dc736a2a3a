//! Units cost their average, or what entered first, and the last ones all that is left.

use cost_formulas::average::Average;
use cost_formulas::layers::Layers;
use std::alloc::Global;
use std::test::Fail;
use stock_nums::memory::NoMemory;
use stock_nums::numbers::{Minor, Qty};

// Three units that are worth 100 together.
fn three_at_an_average() -> Average {
    let mut held = Average::new();
    held.add(Qty(3), Minor(100));
    held
}

// What some units cost at their average, where there are so many.
fn take_of_average(held: &mut Average, units: u32) -> Option<Minor> {
    let units = Qty(u64::from(units));
    if units.0 == 0 || units.0 > held.qty.0 {
        return None;
    }
    Some(held.take(units))
}

#[test]
fn average_takes_all_in_the_end(rt: HostRuntime) {
    let mut held = three_at_an_average();
    for want in [33, 34, 33] {
        assert_eq!(rt; take_of_average(&mut held, 1), Some(Minor(want)));
    }
    assert_eq!(rt; held, Average::new());
}

// Three units that are worth 100 together.
fn three_in_a_layer(alloc: Global) -> Result<Layers, NoMemory> {
    let mut held = Layers::new(alloc);
    held.push(Qty(3), Minor(100))?;
    Ok(held)
}

// Ten units that are worth 1,000 together, and then ten that are worth 1,300.
fn two_layers(alloc: Global) -> Result<Layers, NoMemory> {
    let mut held = Layers::new(alloc);
    held.push(Qty(10), Minor(1_000))?;
    held.push(Qty(10), Minor(1_300))?;
    Ok(held)
}

// What some units cost that entered first, where there are so many, and how many are left then.
fn take_of_layers(held: &mut Layers, units: u32) -> Option<(Minor, Qty)> {
    let units = Qty(u64::from(units));
    if units.0 == 0 || units.0 > held.held().0 {
        return None;
    }
    let cost = held.take(units);
    Some((cost, held.held()))
}

#[test]
fn layers_take_what_entered_first(rt: HostRuntime) -> Result<(), Fail> {
    let mut held = two_layers(rt.alloc())?;
    for (units, cost, left) in [(15, 1_650, 5), (5, 650, 0)] {
        let want = Some((Minor(cost), Qty(left)));
        assert_eq!(rt; take_of_layers(&mut held, units), want, "at {units}");
    }
    Ok(())
}

#[test]
fn no_layer_is_rounded_twice(rt: HostRuntime) -> Result<(), Fail> {
    let mut held = three_in_a_layer(rt.alloc())?;
    for (cost, left) in [(33, 2), (33, 1), (34, 0)] {
        let want = Some((Minor(cost), Qty(left)));
        assert_eq!(rt; take_of_layers(&mut held, 1), want, "at {left} left");
    }
    Ok(())
}
