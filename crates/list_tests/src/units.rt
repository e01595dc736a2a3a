//! Units of one item that enter a warehouse and leave it are found by their numbers.

use layer_ranges::layer::Layer;
use layer_ranges::ranges::Ranges;
use std::alloc::Global;
use std::test::Fail;
use stock_nums::cause::{Cause, Method};
use stock_nums::entry::{Entry, Key};
use stock_nums::memory::NoMemory;
use stock_nums::moment::Moment;
use stock_nums::numbers::{ItemNo, Qty, RecordNo, StoreNo};
use stock_nums::place::{Place, Side};

// Item 1 in warehouse 2.
const KEY: Key = Key {
    item: ItemNo(1),
    store: StoreNo(2),
};

// Where the first line of a record stands.
fn place(voucher: u32, side: Side) -> Place {
    Place {
        moment: Moment {
            date: 20_260_103,
            second: 0,
        },
        voucher: RecordNo(voucher),
        line: 1,
        side,
    }
}

// Five units of item 1 that enter warehouse 2.
fn arrival(voucher: u32) -> Entry {
    Entry {
        place: Place {
            side: Side::Enters,
            ..place(voucher, Side::Enters)
        },
        item: KEY.item,
        store: KEY.store,
        qty: Qty(5),
        method: Method::Fifo,
        cause: Cause::TransferEnters,
    }
}

// Three units of item 1 that leave warehouse 2.
fn issue(voucher: u32) -> Entry {
    Entry {
        place: Place {
            side: Side::Leaves,
            ..place(voucher, Side::Leaves)
        },
        item: KEY.item,
        store: KEY.store,
        qty: Qty(3),
        method: Method::Fifo,
        cause: Cause::Issue { sold: true },
    }
}

// Puts a movement in, in place of what stands there.
fn put_in(ranges: &mut Ranges, entry: &Entry) -> Result<(), NoMemory> {
    ranges.reserve(1)?;
    ranges.remove(entry);
    if ranges.len() < 100 {
        ranges.insert(entry);
    }
    Ok(())
}

// Two arrivals and two issues, the later ones first.
fn two_of_each(alloc: Global) -> Result<Ranges, NoMemory> {
    let mut ranges = Ranges::new(alloc);
    for voucher in [9, 4] {
        put_in(&mut ranges, &arrival(voucher))?;
        ranges.release();
        put_in(&mut ranges, &issue(voucher + 1))?;
    }
    Ok(ranges)
}

#[test]
fn are_numbered_on_both_sides(rt: HostRuntime) -> Result<(), Fail> {
    let ranges = two_of_each(rt.alloc())?;
    let second = Layer {
        place: place(9, Side::Enters),
        begin: Qty(5),
        qty: Qty(5),
    };
    let taken = Layer {
        place: place(5, Side::Leaves),
        begin: Qty(0),
        qty: Qty(3),
    };
    assert_eq!(rt; ranges.len(), 4);
    for (unit, layer) in [(5, Some(second)), (10, None), (u64::MAX, None)] {
        assert!(rt; ranges.unit_in(KEY, Qty(unit)) == layer, "at {unit}");
    }
    assert!(rt; ranges.unit_out(KEY, Qty(2)) == Some(taken));
    Ok(())
}

#[test]
fn are_counted_before_a_place(rt: HostRuntime) -> Result<(), Fail> {
    let ranges = two_of_each(rt.alloc())?;
    assert!(rt; ranges.entered_before(KEY, &place(5, Side::Leaves)) == Qty(5));
    assert!(rt; ranges.left_before(KEY, &place(10, Side::Leaves)) == Qty(3));
    Ok(())
}
