//! What a count of stock comes to.
ghost use Rattle.std.specs.Prelude.{◌≡◌, ◌⊎◌, ◌<◌, unsigned_abs, IfOk, OnOk, IfErr, Some, None};
ghost use Rattle.std.specs.Option.{option_map};
ghost use Rattle.stock_count.specs.Differences.{differences, first_wide, is_wide};
ghost use Rattle.stock_count.specs.Plans.{AreWithinLimits, IsPlan};

use crate::corrections::Corrections;
use crate::holding::{difference, entries_until};
use crate::plan::{CountFault, CountPlan};
use std::alloc::Global;
use stock_nums::limits::MAX_QUANTITY;
use voucher_import::sheet::CountSheet;
use voucher_kinds::journal::Journal;

/// What the count differs by from what each warehouse held at its moment, by the journal's vouchers in force, and the
/// vouchers that make up for it. A difference above 10^9 in size is none that a line of a voucher can make up for: the
/// first such line is told. It goes over all records of the journal.
pub fn plan_count(
    alloc: Global,
    journal: &Journal,
    sheet: &CountSheet,
) -> Result<CountPlan, CountFault>
    ensures plan { IfOk result (λ plan. IsPlan journal.now sheet.now plan) }
    ensures limits { IfOk result (λ plan. AreWithinLimits plan) }
    ensures narrow { OnOk result (first_wide (differences journal.now sheet.now) ≡ None) }
    ensures wide { IfErr result (λ f. (f ≡ CountFault.NoMemory) ⊎ (option_map CountFault.Wide (first_wide (differences journal.now sheet.now)) ≡ Some f)) }
{
    let entries = entries_until(alloc, journal, sheet.at)?;
    let mut corrections = Corrections::new(alloc);
    for (index, line) in sheet.lines.as_slice().iter().enumerate() {
        let diff = difference(journal, entries.as_slice(), line);
        if is_wide(diff) {
            return Err(CountFault::Wide {
                line: index as u32 + 1,
            });
        }
        corrections.add(alloc, line, diff as i64)?;
    }
    Ok(corrections.into_plan(sheet.at))
}

// Whether no line of a voucher can make up for the difference.
fn is_wide(diff: i128) -> bool
    ensures { result ≡ is_wide diff }
{
    diff.unsigned_abs() > u128::from(MAX_QUANTITY)
}
