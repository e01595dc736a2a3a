//! The movements up to a moment.
ghost use Rattle.std.specs.Prelude.{◌≡◌, ◌≤◌, List, length, take, filter, Some, IfOk};
ghost use Rattle.std.specs.List.Sorted.{IsPartitionedBy};
ghost use Rattle.stock_nums.specs.Places.{is_later};
ghost use Rattle.stock_model.specs.Replay.{replay};
ghost use Rattle.stock_model.specs.Reports.{is_until};
ghost use Rattle.stock_model.specs.declared.records.Record.{Record};

use shared_list::blocks::SharedBlocks;
use stock_nums::entry::Row;
use stock_nums::memory::NoMemory;
use stock_nums::moment::Moment;

/// Of the rows of a replay those up to the moment that is asked for, or all where none is. None is copied.
///
/// # Errors
///
/// `NoMemory`: 2^63 hold the rows already, or 2^64 are up to the moment.
pub fn rows_until(
    rows: &SharedBlocks<Row>,
    until: Option<Moment>,
) -> Result<SharedBlocks<Row>, NoMemory>
    requires { (records : List Record) × (rows.now ≡ replay records) }
    ensures { IfOk result (λ front. front ≡ filter (is_until until) rows.now) }
{
    match until {
        Some(until) => rows.front(count_until(rows, until)?),
        None => rows.share(),
    }
}

// How many movements are up to the moment, where those that are come first. The only error is that there are 2^64.
fn count_until(rows: &SharedBlocks<Row>, until: Moment) -> Result<usize, NoMemory>
    requires { IsPartitionedBy (is_until (Some until)) rows.now }
    ensures within { IfOk result (λ count. count ≤ length rows.now) }
    ensures front { IfOk result (λ count. take count rows.now ≡ filter (is_until (Some until)) rows.now) }
{
    let mut count: usize = 0;
    for row in rows.items() {
        if is_later(row.entry.place.moment, until) {
            return Ok(count);
        }
        let Some(more) = count.checked_add(1) else {
            return Err(NoMemory);
        };
        count = more;
    }
    Ok(count)
}

fn is_later(a: Moment, b: Moment) -> bool
    ensures { result ≡ is_later a b }
{
    a > b
}
