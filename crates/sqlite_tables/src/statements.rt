//! The statements that write a ledger's tables, and what each makes of the tables that the database stands for.
ghost use Rattle.std.specs.Prelude.{◌≡◌, pos, ⊤, [], ◌∷◌, OnOk};
ghost use Rattle.sqlite_value.specs.declared.value.Value.TheVariants.{Int};
ghost use Rattle.sqlite.specs.Values.{bound};
ghost use Rattle.sqlite.specs.State.{Survives};
ghost use Rattle.sqlite.specs.Held.{state};
ghost use Rattle.stock_nums.specs.Places.{side_rank};
ghost use Rattle.stock_keeper.specs.Changed.{stored, appended, upgraded, Follows};
ghost use Rattle.sqlite_tables.specs.Rows.{record_row, spot_row, worth_row};
ghost use Rattle.sqlite_tables.specs.Turning.{HasTurned, HasKept, with_worth, without_spot, with_covered};

use sqlite::types::{ToSql, ValueRef};
use sqlite::{Alter, Error, Transaction};
use stock_keeper::changes::SpotWorth;
use stock_nums::numbers::RecordNo;
use stock_nums::place::{Side, Spot};

/// Adds a record.
pub(crate) fn insert_record<S: Alter>(
    tx: &mut Transaction<'_, S>,
    number: RecordNo,
    body: &[u8],
) -> Result<usize, Error>
    ensures same_reference { tx.new.conn.ghost_name ≡ tx.old.conn.ghost_name }
    ensures turned { OnOk result (HasTurned S.Store (λ t. Follows t number) (appended number body.now) tx.old.conn.now tx.new.conn.now) }
    ensures kept { HasKept S.Store tx.old.conn.now tx.new.conn.now }
    ensures survives { Survives (state S.Store tx.old.conn.now) (state S.Store tx.new.conn.now) (λ _. ⊥) }
{
    tx.execute(
        "INSERT INTO records(no, body) VALUES(?1, ?2)",
        &record_values(number, body),
    )
}

/// Puts a worth in at its spot, in place of one that stands there.
pub(crate) fn put_worth<S: Alter>(
    tx: &mut Transaction<'_, S>,
    row: &SpotWorth,
) -> Result<usize, Error>
    ensures same_reference { tx.new.conn.ghost_name ≡ tx.old.conn.ghost_name }
    ensures turned { OnOk result (HasTurned S.Store (λ _. ⊤) (with_worth row.now) tx.old.conn.now tx.new.conn.now) }
    ensures kept { HasKept S.Store tx.old.conn.now tx.new.conn.now }
    ensures survives { Survives (state S.Store tx.old.conn.now) (state S.Store tx.new.conn.now) (λ _. ⊥) }
{
    tx.execute(
        "INSERT INTO worths(voucher, line, side, value, share) VALUES(?1, ?2, ?3, ?4, ?5) ON CONFLICT(voucher, line, side) DO UPDATE SET value = ?4, share = ?5",
        &worth_values(row),
    )
}

/// Takes out the worth at a spot, if one stands there.
pub(crate) fn remove_worth<S: Alter>(
    tx: &mut Transaction<'_, S>,
    spot: &Spot,
) -> Result<usize, Error>
    ensures same_reference { tx.new.conn.ghost_name ≡ tx.old.conn.ghost_name }
    ensures turned { OnOk result (HasTurned S.Store (λ _. ⊤) (without_spot spot.now) tx.old.conn.now tx.new.conn.now) }
    ensures kept { HasKept S.Store tx.old.conn.now tx.new.conn.now }
    ensures survives { Survives (state S.Store tx.old.conn.now) (state S.Store tx.new.conn.now) (λ _. ⊥) }
{
    tx.execute(
        "DELETE FROM worths WHERE voucher = ?1 AND line = ?2 AND side = ?3",
        &spot_values(spot),
    )
}

/// Says from how many records the worths are made.
pub(crate) fn cover<S: Alter>(
    tx: &mut Transaction<'_, S>,
    covered: RecordNo,
) -> Result<usize, Error>
    ensures same_reference { tx.new.conn.ghost_name ≡ tx.old.conn.ghost_name }
    ensures turned { OnOk result (HasTurned S.Store (λ _. ⊤) (with_covered covered) tx.old.conn.now tx.new.conn.now) }
    ensures kept { HasKept S.Store tx.old.conn.now tx.new.conn.now }
    ensures survives { Survives (state S.Store tx.old.conn.now) (state S.Store tx.new.conn.now) (λ _. ⊥) }
{
    tx.execute(
        "UPDATE head SET covered = ?1 WHERE id = 1",
        &covered_values(covered),
    )
}

/// Makes tables of version 1 those of the version that is written now, and leaves those of each other version.
pub(crate) fn upgrade<S: Alter>(tx: &mut Transaction<'_, S>) -> Result<usize, Error>
    ensures same_reference { tx.new.conn.ghost_name ≡ tx.old.conn.ghost_name }
    ensures turned { OnOk result (HasTurned S.Store (λ _. ⊤) upgraded tx.old.conn.now tx.new.conn.now) }
    ensures kept { HasKept S.Store tx.old.conn.now tx.new.conn.now }
    ensures survives { Survives (state S.Store tx.old.conn.now) (state S.Store tx.new.conn.now) (λ _. ⊥) }
{
    tx.execute(
        "UPDATE head SET version = 2 WHERE id = 1 AND version = 1",
        &[],
    )
}

// A record as it is stored.
fn record_values<'a>(number: RecordNo, body: &'a [u8]) -> [ValueRef<'a>; 2]
    ensures { bound result ≡ record_row (stored number body.now) }
{
    [number.0.to_sql(), body.to_sql()]
}

// A spot as it is stored.
fn spot_values(spot: &Spot) -> [ValueRef<'static>; 3]
    ensures { bound result ≡ spot_row spot.now }
{
    [
        spot.voucher.0.to_sql(),
        spot.line.to_sql(),
        side_number(spot.side).to_sql(),
    ]
}

// A worth with its spot as they are stored.
fn worth_values(row: &SpotWorth) -> [ValueRef<'static>; 5]
    ensures { bound result ≡ worth_row row.now }
{
    let spot = &row.spot;
    let worth = &row.worth;
    [
        spot.voucher.0.to_sql(),
        spot.line.to_sql(),
        side_number(spot.side).to_sql(),
        worth.value.0.to_sql(),
        worth.share.0.to_sql(),
    ]
}

// How many records are covered, as it is stored.
fn covered_values(covered: RecordNo) -> [ValueRef<'static>; 1]
    ensures { bound result ≡ Int (pos covered.0) ∷ [] }
{
    [covered.0.to_sql()]
}

// A side as it is stored.
fn side_number(side: Side) -> u32
    ensures { result ≡ side_rank side }
{
    match side {
        Side::Leaves => 0,
        Side::Enters => 1,
    }
}
