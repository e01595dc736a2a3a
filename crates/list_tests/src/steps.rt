//! A count of steps has no bytes.
ghost use Rattle.std.specs.Prelude.{◌≡◌, ◌<◌};

use std::marker::Brand;
use std::sync::ledger::{Blank, Ledger};
use stock_nums::steps::Steps;

fn ticks<L: Ledger>(blank: Blank)
    requires name { blank.name ≡ L.name }
    requires parts { blank.parts ≡ L.parts }
    requires some { 0 < L.parts }
{
    let mut steps = Steps::<L>::new(blank);
    steps.tick();
    steps.tick();
}

#[test]
fn cost_nothing(rt: HostRuntime) {
    assert_eq!(rt; std::mem::size_of::<Steps<Brand>>(), 0);
    ticks::<Brand>(Blank::new(1));
}
