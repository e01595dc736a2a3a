//! Movements of one item are suspects until they are valued, and are told as valued until a publication.

use cost_formulas::average::Average;
use cost_links::values::Valued;
use repost_frontier::frontier::Frontier;
use std::test::Fail;
use stock_nums::cause::{Cause, Method};
use stock_nums::entry::{Entry, Worth};
use stock_nums::memory::NoMemory;
use stock_nums::moment::Moment;
use stock_nums::numbers::{ItemNo, Minor, Qty, RecordNo, StoreNo};
use stock_nums::place::{Place, Side};

// Five units of an item that enter a warehouse.
fn receipt(voucher: u32) -> Entry {
    Entry {
        place: Place {
            moment: Moment {
                date: 20_260_103,
                second: 0,
            },
            voucher: RecordNo(voucher),
            line: 1,
            side: Side::Enters,
        },
        item: ItemNo(1),
        store: StoreNo(2),
        qty: Qty(5),
        method: Method::Average,
        cause: Cause::Receipt { amount: Minor(0) },
    }
}

// A movement's worth, with nothing held after it.
fn worth(amount: u32) -> Valued {
    Valued {
        worth: Worth {
            value: Minor(i64::from(amount)),
            share: Minor(0),
        },
        after: Average::new(),
    }
}

// Puts a movement in where its place is free.
fn put_in(frontier: &mut Frontier, entry: Entry) -> Result<(), NoMemory> {
    frontier.reserve(1)?;
    if frontier.len() < 1_000 && frontier.get(&entry.place).is_none() {
        frontier.insert(entry);
    }
    Ok(())
}

// The record of the first suspect.
fn first_voucher(frontier: &Frontier) -> Option<RecordNo> {
    frontier.first().map(|slot| slot.entry.place.voucher)
}

// Movements of so many records, put in from the last on.
fn filled(frontier: &mut Frontier, count: u32) -> Result<(), NoMemory> {
    for passed in 0..count {
        put_in(frontier, receipt(count - passed))?;
    }
    Ok(())
}

#[test]
fn finds_the_first_suspect(rt: HostRuntime) -> Result<(), Fail> {
    let mut frontier = Frontier::new(rt.alloc());
    filled(&mut frontier, 300)?;
    assert_eq!(rt; frontier.len(), 300);
    for voucher in 1..=300 {
        assert!(rt; first_voucher(&frontier) == Some(RecordNo(voucher)));
        frontier.value(&receipt(voucher).place, worth(voucher));
    }
    assert!(rt; frontier.first().is_none());
    frontier.mark(&receipt(250).place);
    frontier.mark(&receipt(200).place);
    frontier.mark(&receipt(301).place);
    assert!(rt; first_voucher(&frontier) == Some(RecordNo(200)));
    Ok(())
}

// How many movements were valued since the last publication.
fn revalued(frontier: &Frontier) -> usize {
    let mut index = 0;
    let mut count = 0;
    for _ in 0..frontier.len() {
        if index < frontier.len() {
            let run = frontier.run_from(index);
            index = index.saturating_add(run.len());
            let more = run.iter().filter(|slot| slot.is_revalued).count();
            count = more.saturating_add(count);
        }
    }
    count
}

#[test]
fn tells_what_was_found(rt: HostRuntime) -> Result<(), Fail> {
    let mut frontier = Frontier::new(rt.alloc());
    filled(&mut frontier, 200)?;
    frontier.reserve(200)?;
    frontier.release();
    put_in(&mut frontier, receipt(201))?;
    let place = receipt(7).place;
    frontier.value(&place, worth(70));
    frontier.value(&receipt(190).place, worth(80));
    assert_eq!(rt; revalued(&frontier), 2);
    frontier.forget_revalued();
    assert_eq!(rt; revalued(&frontier), 0);
    frontier.mark(&place);
    match frontier.get(&place) {
        Some(slot) => {
            assert!(rt; slot.found == Some(worth(70)));
            assert!(rt; slot.is_suspect && !slot.is_revalued);
        }
        None => assert!(rt; false),
    }
    Ok(())
}
