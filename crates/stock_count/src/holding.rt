//! What a warehouse held at a moment.
ghost use Rattle.std.specs.Prelude.{◌≡◌, ◌*◌, ◌≤◌, ◌^◌, ◌++◌, length, filter, OnOk, IfOk, unsigned_abs};
ghost use Rattle.stock_nums.specs.declared.limits.TheConstants.{MAX_QUANTITY};
ghost use Rattle.stock_nums.specs.Places.{is_later};
ghost use Rattle.stock_model.specs.Entries.{all_entries, is_live_entry};
ghost use Rattle.stock_nums.specs.declared.moment.Moment.{Moment};
ghost use Rattle.stock_count.specs.Differences.{difference};
ghost use Rattle.stock_count.specs.Held.{held_of, is_until, key_with};
ghost use Rattle.stock_count.specs.Sides.{held_among, is_of_side, side_units};

use std::alloc::Global;
use stock_model::names::{Names, Returns};
use stock_nums::code::Code;
use stock_nums::entry::{Entry, Key};
use stock_nums::lines::Lines;
use stock_nums::memory::NoMemory;
use stock_nums::moment::Moment;
use stock_nums::numbers::RecordNo;
use stock_nums::place::Side;
use voucher_import::sheet::CountLine;
use voucher_kinds::journal::Journal;

/// The movements of a journal that are in force and not after the moment, in the order of their records.
pub(crate) fn entries_until(
    alloc: Global,
    journal: &Journal,
    at: Moment,
) -> Result<Lines<Entry>, NoMemory>
    ensures { IfOk result (λ es. es ≡ filter (is_until at) (all_entries journal.now)) }
{
    let mut found = Lines::new(alloc);
    for index in 0..journal.records().len() {
        let entries = journal.entries_of(alloc, RecordNo(index as u32 + 1))?;
        push_until(&mut found, journal, at, entries.as_slice())?;
    }
    Ok(found)
}

// Adds those of the entries that are in force and not after the moment.
fn push_until(
    found: &mut Lines<Entry>,
    journal: &Journal,
    at: Moment,
    entries: &[Entry],
) -> Result<(), NoMemory>
    ensures { OnOk result (found.new ≡ found.old ++ filter (is_until at) (filter (is_live_entry journal.now) entries.now)) }
{
    for entry in entries {
        if journal.is_live(entry.place.voucher) && !is_later(entry.place.moment, at) {
            found.push(*entry)?;
        }
    }
    Ok(())
}

// Whether the first moment is after the second.
fn is_later(a: Moment, b: Moment) -> bool
    ensures { result ≡ is_later a b }
{
    a > b
}

// What entered less what left, by these movements, of a line's item and warehouse: 0 where the journal lacks one of them.
fn held(journal: &Journal, entries: &[Entry], line: &CountLine) -> i128
    ensures held { result ≡ held_among journal.now entries.now line.now.item line.now.store }
    ensures small { unsigned_abs result ≤ 2 ^ 94 }
{
    match key_with(journal, &line.item, &line.store) {
        Some(key) => {
            units(entries, key, Side::Enters) as i128 - units(entries, key, Side::Leaves) as i128
        }
        None => 0,
    }
}

/// What was counted less what was held at the moment, by the movements up to it.
pub(crate) fn difference(journal: &Journal, entries: &[Entry], line: &CountLine) -> i128
    ensures { (at : Moment) → entries.now ≡ filter (is_until at) (all_entries journal.now) → result ≡ difference journal.now at line.now }
{
    i128::from(line.qty.0) - held(journal, entries, line)
}

// The item and the warehouse with these codes.
fn key_with(journal: &Journal, item: &Code, store: &Code) -> Option<Key>
    ensures { result ≡ key_with journal.now item.now store.now }
{
    let (item, _) = journal.item_with(item)?;
    let (store, _) = journal.store_with(store)?;
    Some(Key { item, store })
}

// Whether the movement is of this item in this warehouse, and enters it or leaves it.
fn is_of_side(entry: &Entry, key: Key, side: Side) -> bool
    ensures { result ≡ is_of_side key side entry.now }
{
    entry.item == key.item && entry.store == key.store && entry.place.side == side
}

// How many units of an item entered a warehouse by these movements, or left it.
fn units(entries: &[Entry], key: Key, side: Side) -> u128
    ensures units { result ≡ side_units entries.now key side }
    ensures small { result ≤ length entries.now * MAX_QUANTITY }
{
    let mut units: u128 = 0;
    for entry in entries {
        if is_of_side(entry, key, side) {
            units += u128::from(entry.qty.0);
        }
    }
    units
}
