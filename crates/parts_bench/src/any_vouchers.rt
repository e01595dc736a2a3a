//! Vouchers of 50 items and warehouses in no order of their moments, and what is answered to each.
ghost use Rattle.std.specs.Prelude.{◌<◌};

use crate::movements::{DAYS, Head, KEYS, any_moment, entering, key_of, leaving};
use crate::numbers::Numbers;
use crate::posting::{Answer, post};
use quantity_check::running::Running;
use std::alloc::Global;
use stock_nums::entry::Entry;
use stock_nums::memory::NoMemory;
use stock_nums::numbers::RecordNo;

// The most units of a line.
const MOST_UNITS: u32 = 20;

// The most lines of a voucher with lines of several items.
const MOST_LINES: u32 = 6;

// A line of one item in one warehouse: units come in by a receipt, or go out.
fn any_line(numbers: &mut Numbers, head: Head) -> Entry {
    let key = key_of(numbers.next(KEYS));
    let side = numbers.next(2);
    let units = numbers.next(MOST_UNITS) + 1;
    if side == 0 {
        entering(head, key, units, false)
    } else {
        leaving(head, key, units, false)
    }
}

// Units that go from one warehouse or item to another: both movements stand in one line.
fn transfer(numbers: &mut Numbers, head: Head, entries: &mut Vec<Entry>) -> Result<(), NoMemory> {
    let from = numbers.next(KEYS);
    let to = (from + 1 + numbers.next(KEYS - 1)) % KEYS;
    let units = numbers.next(MOST_UNITS) + 1;
    entries.push(leaving(head, key_of(from), units, true))?;
    entries.push(entering(head, key_of(to), units, true))?;
    Ok(())
}

// Two lines of one item in one warehouse: what goes out stands before what comes in.
fn two_lines(numbers: &mut Numbers, head: Head, entries: &mut Vec<Entry>) -> Result<(), NoMemory> {
    let key = key_of(numbers.next(KEYS));
    let second = Head { line: 2, ..head };
    entries.push(leaving(head, key, numbers.next(MOST_UNITS) + 1, false))?;
    entries.push(entering(second, key, numbers.next(MOST_UNITS) + 1, false))?;
    Ok(())
}

// From one line to several, of any items in any warehouses.
fn several_lines(
    numbers: &mut Numbers,
    head: Head,
    entries: &mut Vec<Entry>,
) -> Result<(), NoMemory> {
    for index in 0..numbers.next(MOST_LINES) + 1 {
        let line = Head {
            line: index + 1,
            ..head
        };
        entries.push(any_line(numbers, line))?;
    }
    Ok(())
}

// The movements of the voucher with this number: of ten there are seven with one line.
fn any_voucher(
    numbers: &mut Numbers,
    number: u32,
    entries: &mut Vec<Entry>,
) -> Result<(), NoMemory> {
    let kind = numbers.next(10);
    let head = Head {
        moment: any_moment(numbers, 0, DAYS),
        voucher: RecordNo(number),
        line: 1,
    };
    match kind {
        0 => transfer(numbers, head, entries),
        1 => two_lines(numbers, head, entries),
        2 => several_lines(numbers, head, entries),
        _ => {
            entries.push(any_line(numbers, head))?;
            Ok(())
        }
    }
}

/// Posts so many vouchers, and tells the answer to each.
pub(crate) fn post_all(alloc: Global, count: u32) -> Result<Vec<Answer>, NoMemory> {
    let mut running = Running::new(alloc);
    let mut numbers = Numbers::new();
    let mut answers = Vec::new(alloc);
    let mut entries = Vec::new(alloc);
    for number in 0..count {
        entries.clear();
        any_voucher(&mut numbers, number, &mut entries)?;
        answers.push(post(&mut running, entries.as_slice())?)?;
    }
    Ok(answers)
}
