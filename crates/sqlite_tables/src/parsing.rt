//! What stands in the rows that queries show.
ghost use Rattle.std.specs.Prelude.{◌≡◌, pos, IfOk};
ghost use Rattle.sqlite_value.specs.declared.value.Value.TheVariants.{Int};
ghost use Rattle.sqlite_value.specs.Order.{column};
ghost use Rattle.stock_nums.specs.Places.{side_rank};
ghost use Rattle.stock_keeper.specs.Worths.{AreInOrder};
ghost use Rattle.sqlite_tables.specs.Rows.{IsRecordOf, IsWorthOf, IsHeadOf, AreRecordsOf, AreWorthsOf, AreSortedOf};

use sqlite::{Error, ErrorCode, Row};
use std::alloc::Global;
use stock_keeper::changes::SpotWorth;
use stock_keeper::tables::StoredRecord;
use stock_keeper::worths::are_in_order;
use stock_nums::entry::Worth;
use stock_nums::lines::Lines;
use stock_nums::numbers::{Minor, RecordNo};
use stock_nums::place::{Side, Spot};

/// The head of a ledger.
#[derive(Clone, Copy)]
pub(crate) struct Head {
    pub(crate) version: i64,
    pub(crate) covered: i64,
}

/// The head that stands in a row.
pub(crate) fn head_of(row: &Row) -> Result<Head, Error>
    ensures { IfOk result (λ head. IsHeadOf row.now head.version head.covered) }
{
    Ok(Head {
        version: row.get(0)?,
        covered: row.get(1)?,
    })
}

/// The records of all these rows.
pub(crate) fn records_of(alloc: Global, rows: &[Row]) -> Result<Lines<StoredRecord>, Error>
    ensures { IfOk result (AreRecordsOf rows.now) }
{
    let mut records = Vec::with_capacity(alloc, rows.len())?;
    for row in rows {
        records.push(record_of(row)?)?;
    }
    Ok(Lines::from_vec(records))
}

fn record_of(row: &Row) -> Result<StoredRecord, Error>
    ensures { IfOk result (λ r. IsRecordOf row.now r) }
{
    let number = row.get(0)?;
    let body: Vec<u8> = row.get(1)?;
    Ok(StoredRecord {
        number,
        body: Lines::from_vec(body),
    })
}

/// The worths of all these rows, which the database was asked for in order.
///
/// # Errors
///
/// `DatabaseCorrupt` where they come out of order, or two at one spot. All others are those of a number that its field can't have.
pub(crate) fn worths_of(alloc: Global, rows: &[Row]) -> Result<Lines<SpotWorth>, Error>
    ensures all { IfOk result (AreWorthsOf rows.now) }
    ensures in_order { IfOk result AreInOrder }
{
    lines_in_order(all_worths_of(alloc, rows)?)
}

/// The worths of all these rows, which stand in any order.
///
/// # Errors
///
/// `DatabaseCorrupt` where two have one spot. All others are those of a number that its field can't have.
pub(crate) fn sorted_worths_of(alloc: Global, rows: &[Row]) -> Result<Lines<SpotWorth>, Error>
    ensures all { IfOk result (AreSortedOf rows.now) }
    ensures in_order { IfOk result AreInOrder }
{
    let mut worths = all_worths_of(alloc, rows)?;
    worths.sort_unstable_by_key(|worth| worth.spot);
    lines_in_order(worths)
}

fn all_worths_of(alloc: Global, rows: &[Row]) -> Result<Vec<SpotWorth>, Error>
    ensures { IfOk result (λ worths. AreWorthsOf rows.now worths.items) }
{
    let mut worths = Vec::with_capacity(alloc, rows.len())?;
    for row in rows {
        worths.push(worth_of(row)?)?;
    }
    Ok(worths)
}

// The same worths, where they are in order and none have one spot.
fn lines_in_order(worths: Vec<SpotWorth>) -> Result<Lines<SpotWorth>, Error>
    ensures same { IfOk result (λ lines. lines ≡ worths.items) }
    ensures in_order { IfOk result AreInOrder }
{
    if !are_in_order(worths.as_slice()) {
        return Err(Error::SqliteFailure(ErrorCode::DatabaseCorrupt));
    }
    Ok(Lines::from_vec(worths))
}

fn worth_of(row: &Row) -> Result<SpotWorth, Error>
    ensures { IfOk result (λ w. IsWorthOf row.now w) }
{
    let spot = Spot {
        voucher: RecordNo(row.get(0)?),
        line: row.get(1)?,
        side: side_of(row)?,
    };
    let worth = Worth {
        value: Minor(row.get(3)?),
        share: Minor(row.get(4)?),
    };
    Ok(SpotWorth { spot, worth })
}

// The side, in its column of a row of worths.
fn side_of(row: &Row) -> Result<Side, Error>
    ensures { IfOk result (λ side. column row.now 2 ≡ Int (pos (side_rank side))) }
{
    let number: i64 = row.get(2)?;
    match number {
        0 => Ok(Side::Leaves),
        1 => Ok(Side::Enters),
        _ => Err(Error::IntegralValueOutOfRange(2)),
    }
}
