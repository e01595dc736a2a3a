//! Movements with what was found of each, as rows.
ghost use Rattle.std.specs.Prelude.{◌≡◌, ◌++◌, IsTrue, length, map, OnOk};
ghost use Rattle.repost_build.specs.Rows.{slot_row, valued_rows};

use crate::row_equality::is_same;
use repost_frontier::slot::Slot;
use stock_nums::entry::{Row, Worth};
use stock_nums::lines::Lines;
use stock_nums::memory::NoMemory;
use stock_nums::numbers::Minor;

/// Adds the rows of these movements at the end.
pub(crate) fn push_rows(rows: &mut Lines<Row>, slots: &[Slot]) -> Result<(), NoMemory>
    ensures { OnOk result (rows.new ≡ rows.old ++ map slot_row slots.now) }
{
    for slot in slots {
        rows.push(row_of(slot))?;
    }
    Ok(())
}

/// Adds the rows of those that were valued since the last publication at the end.
pub(crate) fn push_valued(rows: &mut Lines<Row>, slots: &[Slot]) -> Result<(), NoMemory>
    ensures { OnOk result (rows.new ≡ rows.old ++ valued_rows slots.now) }
{
    for slot in slots {
        if slot.is_revalued {
            rows.push(row_of(slot))?;
        }
    }
    Ok(())
}

/// Whether these are the rows of the movements, which are as many.
pub(crate) fn is_run(slots: &[Slot], rows: &[Row]) -> bool
    requires { length slots.now ≡ length rows.now }
    ensures { IsTrue result → rows.now ≡ map slot_row slots.now }
{
    for index in 0..rows.len() {
        if !is_same(&row_of(&slots[index]), &rows[index]) {
            return false;
        }
    }
    true
}

// What is found of a movement as a row: worth nothing where nothing was found.
fn row_of(slot: &Slot) -> Row
    ensures { result ≡ slot_row slot.now }
{
    Row {
        entry: slot.entry,
        worth: match slot.found {
            Some(valued) => valued.worth,
            None => NOTHING,
        },
    }
}

// What a movement is worth that was never valued.
const NOTHING: Worth = Worth {
    value: Minor(0),
    share: Minor(0),
};
