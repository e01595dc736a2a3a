//! Many movements are held, and more are tried among them.
ghost use Rattle.std.specs.Prelude.{◌<◌, ◌≤◌};

use crate::movements::{DAYS, Head, KEYS, any_moment, entering, first_moment, key_of, leaving};
use crate::numbers::Numbers;
use crate::posting::{fit, post};
use quantity_check::running::Running;
use std::alloc::Global;
use stock_nums::entry::Entry;
use stock_nums::memory::NoMemory;
use stock_nums::numbers::RecordNo;

// How many units each item has in each warehouse from the first second on, more than leave later.
const STOCK: u32 = 10_000_000;

/// What was counted: how many movements are held, and how many of those that were tried would be.
#[derive(Clone, Copy)]
pub(crate) struct Measured {
    pub(crate) held: usize,
    pub(crate) tried: u32,
}

// A movement of one voucher: 10 units come in, or 1 goes out.
fn any_movement(numbers: &mut Numbers, number: u32, keys: u32, first: u32, days: u32) -> Entry
    requires keys { 0 < keys }
    requires known { keys ≤ 50 }
    requires some { 0 < days }
    requires first { first ≤ 4 }
    requires few { days ≤ 4 }
{
    let head = Head {
        moment: any_moment(numbers, first, days),
        voucher: RecordNo(number),
        line: 1,
    };
    let key = key_of(numbers.next(keys));
    if numbers.next(2) == 0 {
        entering(head, key, 10, false)
    } else {
        leaving(head, key, 1, false)
    }
}

// Holds so many movements of so many items in warehouses, put in at places in no order.
fn holding(alloc: Global, numbers: &mut Numbers, count: u32, keys: u32) -> Result<Running, NoMemory>
    requires keys { 0 < keys }
    requires known { keys ≤ 50 }
{
    let mut running = Running::new(alloc);
    for number in 0..count {
        let entry = if number < keys {
            let head = Head {
                moment: first_moment(),
                voucher: RecordNo(number),
                line: 1,
            };
            entering(head, key_of(number), STOCK, false)
        } else {
            any_movement(numbers, number, keys, 0, DAYS)
        };
        post(&mut running, [entry].as_slice())?;
    }
    Ok(running)
}

/// Holds so many movements of one item in one warehouse, and tries so many more in the middle half of the days.
pub(crate) fn tried(alloc: Global, count: u32, tries: u32) -> Result<Measured, NoMemory> {
    let mut numbers = Numbers::new();
    let running = holding(alloc, &mut numbers, count, 1)?;
    let gone: &[Entry] = &[];
    let mut accepted: u32 = 0;
    for _ in 0..tries {
        let entry = any_movement(&mut numbers, count, 1, 1, 2);
        if fit(&running, [entry].as_slice())
            && running.try_change([entry].as_slice(), gone).is_ok()
        {
            accepted = accepted.saturating_add(1);
        }
    }
    Ok(Measured {
        held: running.timeline().len(),
        tried: accepted,
    })
}

/// The same, but only whether the places of those that would be tried are free.
pub(crate) fn looked(alloc: Global, count: u32, tries: u32) -> Result<Measured, NoMemory> {
    let mut numbers = Numbers::new();
    let running = holding(alloc, &mut numbers, count, 1)?;
    let mut free: u32 = 0;
    for _ in 0..tries {
        let entry = any_movement(&mut numbers, count, 1, 1, 2);
        if fit(&running, [entry].as_slice()) {
            free = free.saturating_add(1);
        }
    }
    Ok(Measured {
        held: running.timeline().len(),
        tried: free,
    })
}

/// Holds so many movements of all items in warehouses, and tells how many they are.
pub(crate) fn held_of_all(alloc: Global, count: u32) -> Result<usize, NoMemory> {
    let running = holding(alloc, &mut Numbers::new(), count, KEYS)?;
    Ok(running.timeline().len())
}

/// Makes room for so many movements, and tells how many are held: none.
pub(crate) fn with_room(alloc: Global, count: u32) -> Result<usize, NoMemory> {
    let mut running = Running::new(alloc);
    running.reserve(count as usize)?;
    Ok(running.timeline().len())
}
