//! What a publication changes of the tables.
ghost use Rattle.std.specs.Prelude.{◌≡◌, IfOk};
ghost use Rattle.kept_tables.specs.TablesOf.{spot_worth, changes_of};

use std::alloc::Global;
use stock_keeper::changes::{Changes, SpotWorth};
use stock_nums::entry::Row;
use stock_nums::lines::Lines;
use stock_nums::memory::NoMemory;
use stock_nums::place::Spot;

/// The changes that put the worths of these rows in, and take those at these spots out. The only error is want of memory.
pub fn changes_of(alloc: Global, rows: &[Row], gone: &[Spot]) -> Result<Changes, NoMemory>
    ensures { IfOk result (λ changes. changes ≡ changes_of rows.now gone.now) }
{
    let mut worths = Lines::new(alloc);
    for row in rows {
        worths.push(spot_worth(row))?;
    }
    Ok(Changes {
        rows: worths,
        gone: Lines::from_vec(gone.to_vec(alloc)?),
    })
}

// What a movement is worth, by its spot.
pub(crate) fn spot_worth(row: &Row) -> SpotWorth
    ensures { result ≡ spot_worth row.now }
{
    let place = row.entry.place;
    SpotWorth {
        spot: Spot {
            voucher: place.voucher,
            line: place.line,
            side: place.side,
        },
        worth: row.worth,
    }
}
