//! Of two movements at one moment that comes first which leaves, and then the one on the earlier line.

use stock_nums::moment::Moment;
use stock_nums::numbers::RecordNo;
use stock_nums::place::{Place, Side};

// A place on a line of record 4.
fn place(line: u32, side: Side) -> Place {
    Place {
        moment: Moment {
            date: 20_260_103,
            second: 0,
        },
        voucher: RecordNo(4),
        line,
        side,
    }
}

#[test]
fn are_in_posting_order(rt: HostRuntime) {
    let leaves = place(1, Side::Leaves);
    let enters = place(1, Side::Enters);
    let later = place(2, Side::Leaves);
    let table = [
        (leaves, enters, true),
        (enters, leaves, false),
        (leaves, leaves, false),
        (enters, later, true),
    ];
    for (one, other, want) in table {
        assert_eq!(rt; one.is_before(&other), want, "at {one:?} and {other:?}");
    }
}
