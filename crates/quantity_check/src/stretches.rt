//! The first shortage of a line that some movements are put into and others taken out of, without going over the line.
ghost use Rattle.std.specs.Prelude.{◌≡◌, ◌+◌, ◌^◌, ◌≤◌, ◌++◌, length, All, Contains};
ghost use Rattle.stock_model.specs.Enough.{IsEnough, shortage};
ghost use Rattle.stock_model.specs.InOrder.{IsInPostingOrder};
ghost use Rattle.quantity_check.specs.ChangedLines.{changed_line};
ghost use Rattle.quantity_check.specs.OwnPlaces.{HaveOwnPlaces};
ghost use Rattle.quantity_check.specs.Stretches.{shortage_with_held, shortage_by_lack, shortage_after, shortage_in_stretch, shortage_by_adds, shortage_by_gone, earlier};

use crate::changes::{end_of_stretch, units_more};
use key_order::change::Lack;
use posting_order::timeline::Timeline;
use stock_model::shortages::{Shortage, entry_key};
use stock_nums::entry::{Entry, Key};
use stock_nums::numbers::Qty;

// The movement with which so many units, fewer than none, are held.
fn shortage_with_held(entry: &Entry, held: i64) -> Shortage
    ensures { result ≡ shortage_with_held entry.now held }
{
    Shortage {
        place: entry.place,
        item: entry.item,
        store: entry.store,
        lacking: Qty(held.unsigned_abs()),
    }
}

// The lack of the key as a shortage.
fn shortage_by_lack(key: &Key, lack: Lack) -> Shortage
    ensures { result ≡ shortage_by_lack key.now lack }
{
    Shortage {
        place: lack.place,
        item: key.item,
        store: key.store,
        lacking: lack.lacking,
    }
}

// Of two shortages the one at the earlier place.
fn earlier(first: Option<Shortage>, second: Option<Shortage>) -> Option<Shortage>
    ensures { result ≡ earlier first second }
{
    let Some(a) = first else {
        return second;
    };
    let Some(b) = second else {
        return first;
    };
    if b.place.is_before(&a.place) {
        second
    } else {
        first
    }
}

// The first shortage of the line after a movement that comes or goes, and before the next such one of its item in its warehouse.
fn shortage_after(
    line: &Timeline,
    adds: &[Entry],
    gone: &[Entry],
    entry: &Entry,
) -> Option<Shortage>
    requires adds { length adds.now ≤ 2 ^ 20 }
    requires gone { length gone.now ≤ 2 ^ 20 }
    ensures { result ≡ shortage_after line.now.entries adds.now gone.now entry.now }
{
    let key = entry_key(entry);
    let end = end_of_stretch(adds, gone, entry);
    let more = units_more(adds, gone, entry);
    match line.first_lack(key, &entry.place, end, more) {
        Some(lack) => Some(shortage_by_lack(&key, lack)),
        None => None,
    }
}

// The first shortage from a movement that comes on, and before the next one of its item in its warehouse that comes or goes.
fn shortage_in_stretch(
    line: &Timeline,
    adds: &[Entry],
    gone: &[Entry],
    entry: &Entry,
) -> Option<Shortage>
    requires adds { length adds.now ≤ 2 ^ 20 }
    requires gone { length gone.now ≤ 2 ^ 20 }
    ensures { result ≡ shortage_in_stretch line.now.entries adds.now gone.now entry.now }
{
    let key = entry_key(entry);
    let held = line.held_before(key, &entry.place) + units_more(adds, gone, entry);
    if held < 0 {
        Some(shortage_with_held(entry, held))
    } else {
        shortage_after(line, adds, gone, entry)
    }
}

// The first shortage in the stretches of the movements that come.
fn shortage_by_adds(line: &Timeline, adds: &[Entry], gone: &[Entry]) -> Option<Shortage>
    requires adds { length adds.now ≤ 2 ^ 20 }
    requires gone { length gone.now ≤ 2 ^ 20 }
    ensures { result ≡ shortage_by_adds line.now.entries adds.now gone.now }
{
    let mut first = None;
    for entry in adds {
        first = earlier(first, shortage_in_stretch(line, adds, gone, entry));
    }
    first
}

// The first shortage in the stretches of the movements that go. They themselves take nothing then.
fn shortage_by_gone(line: &Timeline, adds: &[Entry], gone: &[Entry]) -> Option<Shortage>
    requires adds { length adds.now ≤ 2 ^ 20 }
    requires gone { length gone.now ≤ 2 ^ 20 }
    ensures { result ≡ shortage_by_gone line.now.entries adds.now gone.now }
{
    let mut first = None;
    for entry in gone {
        first = earlier(first, shortage_after(line, adds, gone, entry));
    }
    first
}

/// The first movement that takes more than there is, once some movements are put into the line and others are taken out of it,
/// where there is enough before. Those that come have places of their own. Each that goes is in the line, and is named once. It
/// takes no memory.
pub(crate) fn first_shortage(line: &Timeline, adds: &[Entry], gone: &[Entry]) -> Option<Shortage>
    requires in_order { IsInPostingOrder line.now.entries }
    requires enough { IsEnough line.now.entries }
    requires apart { HaveOwnPlaces (line.now.entries ++ adds.now) }
    requires held { All (Contains line.now.entries) gone.now }
    requires once { HaveOwnPlaces gone.now }
    requires few { length line.now.entries + length adds.now ≤ 2 ^ 20 }
    ensures { result ≡ shortage (changed_line line.now.entries adds.now gone.now) }
{
    earlier(
        shortage_by_adds(line, adds, gone),
        shortage_by_gone(line, adds, gone),
    )
}
