//! Movements are found in posting order, with their neighbours of the same item in the same warehouse.

use key_order::change::Lack;
use posting_order::timeline::Timeline;
use std::alloc::Global;
use std::test::Fail;
use stock_nums::cause::{Cause, Method};
use stock_nums::entry::{Entry, Key};
use stock_nums::memory::NoMemory;
use stock_nums::moment::Moment;
use stock_nums::numbers::{ItemNo, Minor, Qty, RecordNo, StoreNo};
use stock_nums::place::{Place, Side};

// Item 1 in warehouse 2.
const KEY: Key = Key {
    item: ItemNo(1),
    store: StoreNo(2),
};

// An hour of the third of January 2026, or the last one.
fn moment(hour: u8) -> Moment {
    Moment {
        date: 20_260_103,
        second: u32::from(hour.min(23)) * 3600,
    }
}

// Where a receipt's line stands at an hour.
fn place(hour: u8, voucher: u32) -> Place {
    Place {
        moment: moment(hour),
        voucher: RecordNo(voucher),
        line: 1,
        side: Side::Enters,
    }
}

// A unit of an item that enters warehouse 2 there.
fn unit(hour: u8, voucher: u32, item: u32) -> Entry {
    Entry {
        place: Place {
            side: Side::Enters,
            ..place(hour, voucher)
        },
        item: ItemNo(item),
        store: StoreNo(2),
        qty: Qty(1),
        method: Method::Average,
        cause: Cause::Receipt { amount: Minor(0) },
    }
}

// Puts a movement in where its place is free.
fn put_in(timeline: &mut Timeline, entry: Entry) -> Result<(), NoMemory> {
    timeline.reserve(1)?;
    if timeline.len() < 100 && timeline.get(&entry.place).is_none() {
        timeline.insert(entry);
    }
    Ok(())
}

// A unit for each of these hours, records and items.
fn of_units(alloc: Global, units: &[(u8, u32, u32)]) -> Result<Timeline, NoMemory> {
    let mut timeline = Timeline::new(alloc);
    for (hour, voucher, item) in units {
        put_in(&mut timeline, unit(*hour, *voucher, *item))?;
    }
    Ok(timeline)
}

// Three units of item 1, and one of item 4.
fn of_two_items(alloc: Global) -> Result<Timeline, NoMemory> {
    of_units(alloc, &[(12, 7, 1), (9, 8, 1), (12, 5, 1), (12, 6, 4)])
}

#[test]
fn have_neighbours(rt: HostRuntime) -> Result<(), Fail> {
    let timeline = of_two_items(rt.alloc())?;
    let neighbours = [
        ((9, 1), Some((9, 8)), None),
        ((9, 8), Some((12, 5)), None),
        ((12, 5), Some((12, 7)), Some((9, 8))),
        ((12, 6), Some((12, 7)), Some((12, 5))),
        ((12, 7), None, Some((12, 5))),
        ((23, 1), None, Some((12, 7))),
    ];
    for ((hour, voucher), next, previous) in neighbours {
        let at = place(hour, voucher);
        let next = next.map(|(hour, voucher)| place(hour, voucher));
        let previous = previous.map(|(hour, voucher)| place(hour, voucher));
        assert!(rt; timeline.next_of_key(KEY, &at) == next, "at {at:?}");
        assert!(rt; timeline.prev_of_key(KEY, &at) == previous, "at {at:?}");
    }
    Ok(())
}

#[test]
fn are_counted_until_a_moment(rt: HostRuntime) -> Result<(), Fail> {
    let timeline = of_two_items(rt.alloc())?;
    for (hour, count) in [(8, 0), (9, 1), (11, 1), (12, 4)] {
        assert_eq!(rt; timeline.until(moment(hour)), count, "at {hour}");
    }
    Ok(())
}

#[test]
fn are_taken_out(rt: HostRuntime) -> Result<(), Fail> {
    let mut timeline = of_two_items(rt.alloc())?;
    assert!(rt; timeline.remove(&place(12, 4)).is_none());
    assert!(rt; timeline.remove(&place(12, 6)) == Some(unit(12, 6, 4)));
    let left = [unit(9, 8, 1), unit(12, 5, 1), unit(12, 7, 1)];
    let all = timeline.to_lines(rt.alloc())?;
    assert!(rt; all.as_slice() == left.as_slice());
    Ok(())
}

#[test]
fn tell_what_is_held(rt: HostRuntime) -> Result<(), Fail> {
    let timeline = of_units(rt.alloc(), &[(12, 5, 1), (9, 8, 1)])?;
    let lack = Lack {
        place: place(9, 8),
        lacking: Qty(1),
    };
    assert!(rt; timeline.first_lack(KEY, &place(9, 1), None, -2) == Some(lack));
    assert_eq!(rt; timeline.held_before(KEY, &place(12, 7)), 2);
    assert_eq!(rt; timeline.rank_of_key(KEY, &place(12, 7)), 2);
    assert_eq!(rt; timeline.len(), 2);
    assert!(rt; timeline.run_from(1) == [unit(12, 5, 1)].as_slice());
    Ok(())
}
