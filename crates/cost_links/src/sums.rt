//! Amounts that are added up for lines of vouchers.
ghost use Rattle.std.specs.Prelude.{◌≡◌, ◌+◌, ◌^◌, ◌<◌, ◌≤◌, if◌then◌else◌, OnOk};
ghost use Rattle.stock_nums.specs.LineSums.{number_of};
ghost use Rattle.stock_nums.specs.Targets.{is_same_target};
ghost use Rattle.stock_nums.specs.declared.cause.Target.{Target};
ghost use Rattle.cost_links.specs.Charged.{amount};

use stock_nums::cause::Target;
use stock_nums::line_sums::LineSums;
use stock_nums::memory::NoMemory;
use stock_nums::numbers::Minor;

/// Adds to the number of the line. For want of memory no number changes.
pub(crate) fn add_to(sums: &mut LineSums, line: Target, number: u128) -> Result<(), NoMemory>
    requires { number_of sums.old line + number < 2 ^ 128 }
    ensures { OnOk result ((other : Target) → number_of sums.new other ≡ number_of sums.old other + (if is_same_target line other then number else 0)) }
{
    sums.reserve(line)?;
    sums.add(line, number);
    Ok(())
}

/// How many minor units an amount has that is not below 0.
pub(crate) fn amount(money: Minor) -> u128
    ensures number { result ≡ amount money }
    ensures small { result ≤ 2 ^ 63 }
{
    u128::from(money.0.unsigned_abs())
}
