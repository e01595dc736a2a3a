//! An issue of more than was received is refused with what lacks, and so is a change by which a receipt goes whose units left.

use quantity_check::running::Running;
use std::test::Fail;
use stock_model::shortages::Shortage;
use stock_nums::cause::{Cause, Method};
use stock_nums::entry::Entry;
use stock_nums::moment::Moment;
use stock_nums::numbers::{ItemNo, Minor, Qty, RecordNo, StoreNo};
use stock_nums::place::{Place, Side};

#[test]
fn are_told(rt: HostRuntime) -> Result<(), Fail> {
    let receipt = Entry {
        place: Place {
            moment: Moment {
                date: 20_260_103,
                second: 32_400,
            },
            voucher: RecordNo(3),
            line: 1,
            side: Side::Enters,
        },
        item: ItemNo(1),
        store: StoreNo(2),
        qty: Qty(10),
        method: Method::Average,
        cause: Cause::Receipt { amount: Minor(0) },
    };
    let mut issue = receipt;
    issue.place.voucher = RecordNo(4);
    issue.place.side = Side::Leaves;
    issue.cause = Cause::Issue { sold: true };
    let mut more = issue;
    more.qty = Qty(13);
    let lacks = Shortage {
        place: issue.place,
        item: ItemNo(1),
        store: StoreNo(2),
        lacking: Qty(3),
    };
    let mut running = Running::new(rt.alloc());
    running.reserve(1)?;
    let received = running.try_change([receipt].as_slice(), &[]);
    assert!(rt; received.is_ok());
    running.change([receipt].as_slice(), &[]);
    let issued = running.try_change([issue].as_slice(), &[]);
    assert!(rt; issued == Ok(()));
    let refused = running.try_change([more].as_slice(), &[]);
    assert!(rt; refused == Err(lacks));
    assert_eq!(rt; running.timeline().len(), 1);
    Ok(())
}

#[test]
fn are_told_where_movements_go(rt: HostRuntime) -> Result<(), Fail> {
    let receipt = Entry {
        place: Place {
            moment: Moment {
                date: 20_260_101,
                second: 32_400,
            },
            voucher: RecordNo(5),
            line: 1,
            side: Side::Enters,
        },
        item: ItemNo(1),
        store: StoreNo(2),
        qty: Qty(10),
        method: Method::Average,
        cause: Cause::Receipt { amount: Minor(500) },
    };
    let mut issue = receipt;
    issue.place.moment.date = 20_260_105;
    issue.place.voucher = RecordNo(6);
    issue.place.side = Side::Leaves;
    issue.cause = Cause::Issue { sold: true };
    let lacks = Shortage {
        place: issue.place,
        item: ItemNo(1),
        store: StoreNo(2),
        lacking: Qty(10),
    };
    let mut running = Running::new(rt.alloc());
    running.reserve(2)?;
    let both = running.try_change([receipt, issue].as_slice(), &[]);
    assert!(rt; both.is_ok());
    running.change([receipt, issue].as_slice(), &[]);
    let refused = running.try_change(&[], [receipt].as_slice());
    assert!(rt; refused == Err(lacks));
    let without_issue = running.try_change(&[], [issue].as_slice());
    assert!(rt; without_issue.is_ok());
    running.change(&[], [issue].as_slice());
    let empty = running.try_change(&[], [receipt].as_slice());
    assert!(rt; empty == Ok(()));
    assert_eq!(rt; running.timeline().len(), 1);
    Ok(())
}
