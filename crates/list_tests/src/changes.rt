//! Changes of one item in two warehouses are found by their places.

use key_order::change::{Change, Lack};
use key_order::order::KeyOrder;
use std::alloc::Global;
use std::test::Fail;
use stock_nums::cause::{Cause, Method};
use stock_nums::entry::{Entry, Key};
use stock_nums::memory::NoMemory;
use stock_nums::moment::Moment;
use stock_nums::numbers::{ItemNo, Minor, Qty, RecordNo, StoreNo};
use stock_nums::place::{Place, Side};

// Item 1 in warehouse 2.
const KEY: Key = Key {
    item: ItemNo(1),
    store: StoreNo(2),
};

// Five units of item 1 that enter a warehouse.
fn receipt(voucher: u32, store: u32) -> Entry {
    Entry {
        place: Place {
            moment: Moment {
                date: 20_260_103,
                second: 0,
            },
            voucher: RecordNo(voucher),
            line: 1,
            side: Side::Enters,
        },
        item: ItemNo(1),
        store: StoreNo(store),
        qty: Qty(5),
        method: Method::Average,
        cause: Cause::Receipt { amount: Minor(0) },
    }
}

// Puts a change in, in place of what stands there.
fn put_in(order: &mut KeyOrder, change: Change) -> Result<(), NoMemory> {
    order.reserve(1)?;
    order.remove(change.key, &change.place);
    if order.len() < 100 {
        order.insert(change);
    }
    Ok(())
}

// What enters warehouses 2 and 3, and then twice what leaves warehouse 2.
fn changes(alloc: Global) -> Result<KeyOrder, NoMemory> {
    let mut order = KeyOrder::new(alloc);
    put_in(&mut order, Change::of(&receipt(7, 2)))?;
    put_in(&mut order, Change::of(&receipt(6, 3)))?;
    order.release();
    put_in(&mut order, Change::leaving(&receipt(8, 2)))?;
    put_in(&mut order, Change::leaving(&receipt(9, 2)))?;
    Ok(order)
}

#[test]
fn are_found(rt: HostRuntime) -> Result<(), Fail> {
    let order = changes(rt.alloc())?;
    let [first, second, last] = [7, 8, 9].map(|voucher| receipt(voucher, 2).place);
    assert_eq!(rt; order.len(), 4);
    assert!(rt; order.next(KEY, None) == Some(first));
    assert!(rt; order.next(KEY, Some(last)).is_none());
    assert!(rt; order.previous(KEY, &last) == Some(second));
    assert_eq!(rt; order.rank(KEY, &last), 2);
    assert_eq!(rt; order.held_before(KEY, &second), 5);
    Ok(())
}

#[test]
fn lack_what_leaves_and_never_entered(rt: HostRuntime) -> Result<(), Fail> {
    let order = changes(rt.alloc())?;
    let last = receipt(9, 2).place;
    let lack = Lack {
        place: last,
        lacking: Qty(5),
    };
    assert!(rt; order.first_lack(KEY, None, None, 0) == Some(lack));
    assert!(rt; order.first_lack(KEY, Some(last), None, 0).is_none());
    Ok(())
}
