//! Returns are linked to the line of their issue, and charges to that of their receipt.

use cost_links::charges::Charge;
use cost_links::links::Links;
use std::test::Fail;
use stock_nums::cause::{Cause, Method, Target};
use stock_nums::entry::Entry;
use stock_nums::moment::Moment;
use stock_nums::numbers::{ItemNo, Minor, Qty, RecordNo, StoreNo};
use stock_nums::place::{Place, Side};

// One unit of a line of an issue that comes back.
fn back(sale: Target, line: u32) -> Entry {
    Entry {
        place: Place {
            moment: Moment {
                date: 20_260_105,
                second: 32_400,
            },
            voucher: RecordNo(5),
            line,
            side: Side::Enters,
        },
        item: ItemNo(1),
        store: StoreNo(2),
        qty: Qty(1),
        method: Method::Fifo,
        cause: Cause::CustomerReturn {
            target: sale,
            issued: Qty(3),
        },
    }
}

#[test]
fn links_a_return_to_its_issue(rt: HostRuntime) -> Result<(), Fail> {
    let sale = Target {
        voucher: RecordNo(4),
        line: 1,
    };
    let receipt = Target {
        voucher: RecordNo(3),
        line: 1,
    };
    let charge = Charge {
        line: receipt,
        amount: Minor(7),
    };
    let mut links = Links::new(rt.alloc());
    links.add(rt.alloc(), &[back(sale, 2), back(sale, 3)], &[charge])?;
    assert_eq!(rt; links.returns(sale).len(), 2);
    assert!(rt; links.returns(receipt).is_empty());
    assert_eq!(rt; links.charged(receipt), Minor(7));
    assert_eq!(rt; links.charged(sale), Minor(0));
    assert_eq!(rt; links.returned_before(&back(sale, 3)), Qty(1));
    Ok(())
}
