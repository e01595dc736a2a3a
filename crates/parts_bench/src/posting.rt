//! Movements are posted where there is enough with them.
ghost use Rattle.std.specs.Prelude.{◌≡◌, ◌+◌, ◌^◌, ◌≤◌, ◌++◌, IsTrue, length, None};
ghost use Rattle.posting_order.specs.Timelines.{is_at, entry_at};
ghost use Rattle.quantity_check.specs.OwnPlaces.{HaveOwnPlaces};

use posting_order::timeline::Timeline;
use quantity_check::running::Running;
use std::fmt;
use std::fmt::Write;
use stock_model::shortages::Shortage;
use stock_nums::entry::Entry;
use stock_nums::memory::NoMemory;
use stock_nums::place::{Place, Side};

/// The most movements that are held.
const MOST: usize = 1_048_576;

/// What becomes of movements that are posted.
#[derive(Clone, Copy, PartialEq, Eq)]
pub(crate) enum Answer {
    /// They are held.
    Accepted,
    /// The first movement that would take more than there is. None is held.
    Short(Shortage),
    /// A place is taken, or there would be too many. None is held.
    Unfit,
}

// Whether the movement stands at the place.
fn is_at(entry: &Entry, place: &Place) -> bool
    ensures { result ≡ is_at place.now entry.now }
{
    entry.place == *place
}

// Whether none of the movements stands at the place.
fn is_free_of(entries: &[Entry], place: &Place) -> bool
    ensures { IsTrue result → entry_at entries.now place.now ≡ None }
{
    for entry in entries {
        if is_at(entry, place) {
            return false;
        }
    }
    true
}

// Whether none of those that are held and none of these movements stands at the place.
fn is_free(line: &Timeline, entries: &[Entry], place: &Place) -> bool
    ensures held { IsTrue result → entry_at line.now.entries place.now ≡ None }
    ensures others { IsTrue result → entry_at entries.now place.now ≡ None }
{
    match line.get(place) {
        Some(_) => false,
        None => is_free_of(entries, place),
    }
}

// Whether the movements stand at places of their own, where none of those that are held does.
fn have_own_places(running: &Running, entries: &[Entry]) -> bool
    ensures { IsTrue result → HaveOwnPlaces (running.now.entries ++ entries.now) }
{
    let line = running.timeline();
    let mut passed = 0;
    for entry in entries {
        if !is_free(line, &entries[..passed], &entry.place) {
            return false;
        }
        passed += 1;
    }
    true
}

/// Whether the movements can be tried: their places are free, and they are not too many.
pub(crate) fn fit(running: &Running, entries: &[Entry]) -> bool
    ensures apart { IsTrue result → HaveOwnPlaces (running.now.entries ++ entries.now) }
    ensures few { IsTrue result → length running.now.entries + length entries.now ≤ 2 ^ 20 }
{
    let held = running.timeline().len();
    held <= MOST && entries.len() <= MOST - held && have_own_places(running, entries)
}

/// Puts the movements among those that are held, where there is enough at all moments with them.
///
/// # Errors
///
/// `NoMemory`: none of them is held.
pub(crate) fn post(running: &mut Running, entries: &[Entry]) -> Result<Answer, NoMemory> {
    if !fit(running, entries) {
        return Ok(Answer::Unfit);
    }
    match running.try_change(entries, &[]) {
        Err(shortage) => Ok(Answer::Short(shortage)),
        Ok(()) => {
            running.reserve(entries.len())?;
            running.change(entries, &[]);
            Ok(Answer::Accepted)
        }
    }
}

impl fmt::Display for Answer {
    fn fmt<W: fmt::Write>(&self, f: &mut fmt::Formatter<W>) -> fmt::Result {
        match self {
            Answer::Accepted => f.write_str("accepted"),
            Answer::Short(short) => write_short(short, f),
            Answer::Unfit => f.write_str("unfit"),
        }
    }
}

// Writes the shortage: its date, second, voucher, line and side, the item, the warehouse, and how many units are lacking.
fn write_short<W: fmt::Write>(short: &Shortage, f: &mut fmt::Formatter<W>) -> fmt::Result {
    let place = &short.place;
    let side = match place.side {
        Side::Leaves => "leaves",
        Side::Enters => "enters",
    };
    write!(
        f,
        "{} {} {} {} {side} ",
        place.moment.date, place.moment.second, place.voucher.0, place.line
    )?;
    write!(f, "{} {} {}", short.item.0, short.store.0, short.lacking.0)
}
