//! A receipt is worth its amount and its charges.
ghost use Rattle.std.specs.Prelude.{◌≡◌, ◌<◌};

use cost_formulas::average::Average;
use cost_links::values::{TakenOver, Valued, value_entry};
use std::marker::Brand;
use std::sync::ledger::{Blank, Ledger};
use stock_nums::cause::{Cause, Method};
use stock_nums::entry::Entry;
use stock_nums::moment::Moment;
use stock_nums::numbers::{ItemNo, Minor, Qty, RecordNo, StoreNo};
use stock_nums::place::{Place, Side};
use stock_nums::steps::Steps;

fn first_receipt<L: Ledger>(blank: Blank) -> Valued
    requires name { blank.name ≡ L.name }
    requires parts { blank.parts ≡ L.parts }
    requires some { 0 < L.parts }
{
    let receipt = Entry {
        place: Place {
            moment: Moment {
                date: 20_260_105,
                second: 32_400,
            },
            voucher: RecordNo(3),
            line: 1,
            side: Side::Enters,
        },
        item: ItemNo(1),
        store: StoreNo(2),
        qty: Qty(10),
        method: Method::Average,
        cause: Cause::Receipt {
            amount: Minor(1_000),
        },
    };
    let mut steps = Steps::<L>::new(blank);
    let taken = TakenOver {
        charged: Minor(30),
        back: Qty(0),
        held: Average::new(),
        linked: Minor(0),
    };
    value_entry(&receipt, &taken, &mut steps)
}

#[test]
fn a_receipt_is_worth_its_amount_and_charges(rt: HostRuntime) {
    let valued = first_receipt::<Brand>(Blank::new(1));
    assert_eq!(rt; valued.worth.value, Minor(1_030));
    assert_eq!(rt; valued.worth.share, Minor(30));
    assert_eq!(rt; valued.after.qty, Qty(10));
    assert_eq!(rt; valued.after.value, Minor(1_030));
}
