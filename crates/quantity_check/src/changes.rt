//! What movements that come and movements that go change of what is held, and where the next of them stands. They are in no order.
ghost use Rattle.std.specs.Prelude.{◌≡◌, ◌^◌, ◌≤◌, length, unsigned_abs};
ghost use Rattle.stock_model.specs.Enough.{is_of_key};
ghost use Rattle.key_order.specs.Changes.{change_of, changes_of, change_units, held_with};
ghost use Rattle.quantity_check.specs.Stretches.{is_later_of, units_until, nearer, nearer_after, nearest_after, units_more, end_of_stretch};

use stock_model::shortages::entry_key;
use stock_nums::entry::{Entry, Key};
use stock_nums::limits::MAX_QUANTITY;
use stock_nums::place::{Place, Side};

// Whether the movement is of this item in this warehouse.
fn is_of_key(entry: &Entry, key: &Key) -> bool
    ensures { result ≡ is_of_key key.now entry.now }
{
    entry.item == key.item && entry.store == key.store
}

// By how many units the movement changes what is held of the key with what stands up to the place and at it.
fn units_until(entry: &Entry, key: &Key, place: &Place) -> i64
    ensures value { result ≡ units_until key.now place.now entry.now }
    ensures bound { unsigned_abs result ≤ MAX_QUANTITY }
{
    if is_of_key(entry, key) && !place.is_before(&entry.place) {
        signed_units(entry)
    } else {
        0
    }
}

// By how many units the movement changes what is held.
fn signed_units(entry: &Entry) -> i64
    ensures value { result ≡ change_units (change_of entry.now) }
    ensures bound { unsigned_abs result ≤ MAX_QUANTITY }
{
    match entry.place.side {
        Side::Enters => entry.qty.0 as i64,
        Side::Leaves => -(entry.qty.0 as i64),
    }
}

// By how many units the movements change what is held of the key with what stands up to the place and at it.
fn held_with(entries: &[Entry], key: &Key, place: &Place) -> i64
    requires { length entries.now ≤ 2 ^ 20 }
    ensures value { result ≡ held_with (changes_of entries.now) key.now place.now }
    ensures bound { unsigned_abs result ≤ 2 ^ 50 }
{
    let mut held = 0;
    for entry in entries {
        held += units_until(entry, key, place);
    }
    held
}

// Whether the movement is of the key and comes after the place.
fn is_later_of(entry: &Entry, key: &Key, place: &Place) -> bool
    ensures { result ≡ is_later_of key.now place.now entry.now }
{
    is_of_key(entry, key) && place.is_before(&entry.place)
}

// The place, if it comes before the end, or else the end.
fn nearer(end: Option<Place>, place: Place) -> Option<Place>
    ensures { result ≡ nearer end place }
{
    match end {
        None => Some(place),
        Some(last) => {
            if place.is_before(&last) {
                Some(place)
            } else {
                end
            }
        }
    }
}

// The movement's place, if it is of the key and comes after the place and before the end, or else the end.
fn nearer_after(end: Option<Place>, key: &Key, place: &Place, entry: &Entry) -> Option<Place>
    ensures { result ≡ nearer_after end key.now place.now entry.now }
{
    if is_later_of(entry, key, place) {
        nearer(end, entry.place)
    } else {
        end
    }
}

// The least place after this one of a movement of the key, or the end, if that comes before it.
fn nearest_after(end: Option<Place>, entries: &[Entry], key: &Key, place: &Place) -> Option<Place>
    ensures { result ≡ nearest_after end entries.now key.now place.now }
{
    let mut nearest = end;
    for entry in entries {
        nearest = nearer_after(nearest, key, place, entry);
    }
    nearest
}

/// By how many units more, or fewer, are held in the stretch of a movement, where some movements come and others go.
pub(crate) fn units_more(adds: &[Entry], gone: &[Entry], entry: &Entry) -> i64
    requires adds { length adds.now ≤ 2 ^ 20 }
    requires gone { length gone.now ≤ 2 ^ 20 }
    ensures value { result ≡ units_more adds.now gone.now entry.now }
    ensures bound { unsigned_abs result ≤ 2 ^ 51 }
{
    let key = entry_key(entry);
    held_with(adds, &key, &entry.place) - held_with(gone, &key, &entry.place)
}

/// Where the stretch of a movement ends: at the next one of its item in its warehouse that comes or goes. None where there is no
/// later one.
pub(crate) fn end_of_stretch(adds: &[Entry], gone: &[Entry], entry: &Entry) -> Option<Place>
    ensures { result ≡ end_of_stretch adds.now gone.now entry.now }
{
    let key = entry_key(entry);
    let end = nearest_after(None, adds, &key, &entry.place);
    nearest_after(end, gone, &key, &entry.place)
}
