//! Stored worths are compared with what is due over the rows stored before them.
ghost use Rattle.std.specs.Prelude.{◌≡◌, ◌^◌, ◌<◌, ◌↔◌, length, IsTrue, None, Some, IfOk, IfSome};
ghost use Rattle.stock_model.specs.Accounts.{balances};
ghost use Rattle.stock_model.specs.Journals.{AreLegal};
ghost use Rattle.stock_model.specs.Masters.{heads};
ghost use Rattle.stock_model.specs.PostingOrder.{posting_line};
ghost use Rattle.stock_model.specs.Replay.{replay};
ghost use Rattle.generation_audit.specs.Comparing.{IsWalked, IsCompared};
ghost use Rattle.generation_audit.specs.RightRows.{entry_spot, stored_worth, AreOwn};
ghost use Rattle.generation_audit.specs.Findings.{IsExtra};

use crate::charges::Charges;
use crate::finding::Finding;
use crate::rows_before::RowsBefore;
use crate::stored_worths::{FreeSpots, StoredWorths, spot_of};
use gl_lines::balances::balances;
use std::alloc::Global;
use stock_keeper::changes::SpotWorth;
use stock_model::ledger_lines::Balance;
use stock_model::masters::heads_after;
use stock_model::records::Record;
use stock_nums::entry::{Entry, Row, Worth};
use stock_nums::lines::Lines;
use stock_nums::memory::NoMemory;

/// What stored worths come to.
#[derive(Drop)]
pub(crate) enum Compared {
    /// Each is right, and stands once. These are the balances of the accounts over them.
    Same(Lines<Balance>),
    /// The first place at which they are not right.
    Apart(Finding),
}

/// What those come to that are stored of movements.
#[derive(Drop)]
pub(crate) enum Walked {
    /// Each is right: these are the rows.
    Right(Lines<Row>),
    /// The first that is not.
    Wrong(Finding),
}

/// Compares the worths with what is due of the records, whose movements in posting order are these. The only error is want of
/// memory.
pub(crate) fn compare_worths(
    alloc: Global,
    records: &[Record],
    line: &[Entry],
    worths: &[SpotWorth],
) -> Result<Compared, NoMemory>
    requires legal { AreLegal records.now }
    requires few { length records.now < 2 ^ 32 }
    requires line { line.now ≡ posting_line records.now }
    ensures { IfOk result (IsCompared records.now worths.now) }
{
    let rows = match walk_line(alloc, records, line, worths)? {
        Walked::Right(rows) => rows,
        Walked::Wrong(found) => return Ok(Compared::Apart(found)),
    };
    if let Some(found) = first_extra(alloc, line, worths)? {
        return Ok(Compared::Apart(found));
    }
    let accounts = accounts_of(alloc, records, rows.as_slice())?;
    Ok(Compared::Same(accounts))
}

// Goes over the movements, each with what is stored of it.
fn walk_line(
    alloc: Global,
    records: &[Record],
    line: &[Entry],
    worths: &[SpotWorth],
) -> Result<Walked, NoMemory>
    requires legal { AreLegal records.now }
    requires few { length records.now < 2 ^ 32 }
    requires line { line.now ≡ posting_line records.now }
    ensures { IfOk result (IsWalked records.now worths.now) }
{
    let charges = Charges::new(alloc, records)?;
    let stored = StoredWorths::of(alloc, worths)?;
    let mut before = RowsBefore::new(alloc);
    for entry in line {
        let due = before.due(&charges, entry);
        if let Some(found) = wrong_at(&stored, entry, due) {
            return Ok(Walked::Wrong(found));
        }
        let row = Row {
            entry: *entry,
            worth: due,
        };
        before = before.with(alloc, row)?;
    }
    Ok(Walked::Right(before.into_rows()))
}

// What is stored of the movement and is not what is due. None where that is stored.
fn wrong_at(stored: &StoredWorths<'_>, entry: &Entry, due: Worth) -> Option<Finding>
    ensures right { result ≡ None → stored_worth stored.now.worths.now entry.now ≡ Some due }
    ensures wrong { IfSome result (λ found. stored_worth stored.now.worths.now entry.now ≡ Some due → ⊥) }
    ensures spot { IfSome result (λ found. found.spot ≡ entry_spot entry.now) }
    ensures stored { IfSome result (λ found. found.stored ≡ stored_worth stored.now.worths.now entry.now) }
    ensures due { IfSome result (λ found. found.due ≡ Some due) }
{
    let spot = spot_of(entry);
    let kept = stored.at(&spot);
    if is_worth(&kept, &due) {
        return None;
    }
    Some(Finding {
        spot,
        stored: kept,
        due: Some(due),
    })
}

// Whether what is stored is this worth.
fn is_worth(kept: &Option<Worth>, due: &Worth) -> bool
    ensures { IsTrue result ↔ (kept.now ≡ Some due.now) }
{
    match kept {
        Some(worth) => worth == due,
        None => false,
    }
}

// The first worth of none of the movements, or that stands at its spot a second time. None where there is none.
fn first_extra(
    alloc: Global,
    line: &[Entry],
    worths: &[SpotWorth],
) -> Result<Option<Finding>, NoMemory>
    ensures own { IfOk result (λ found. found ≡ None → AreOwn line.now worths.now) }
    ensures extra { IfOk result (λ found. IfSome found (IsExtra line.now worths.now)) }
{
    let mut free = FreeSpots::of(alloc, line)?;
    for worth in worths {
        if !free.has(&worth.spot) {
            return Ok(Some(Finding {
                spot: worth.spot,
                stored: Some(worth.worth),
                due: None,
            }));
        }
        free.take(worth.spot)?;
    }
    Ok(None)
}

// The balance of each account that the rows have a line on.
fn accounts_of(alloc: Global, records: &[Record], rows: &[Row]) -> Result<Lines<Balance>, NoMemory>
    requires legal { AreLegal records.now }
    requires few { length records.now < 2 ^ 32 }
    requires rows { rows.now ≡ replay records.now }
    ensures { IfOk result (λ found. found ≡ balances (heads records.now) rows.now) }
{
    let heads = heads_after(alloc, records, 0)?;
    balances(alloc, rows, heads.as_slice())
}
