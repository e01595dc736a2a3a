//! The first line of a voucher that has a fault.
ghost use Rattle.std.specs.Prelude.{◌≡◌, ◌≤◌, false, length, slice_get};
ghost use Rattle.std.specs.Option.{option_map_or};
ghost use Rattle.stock_model.specs.Faults.{first_line, line_test, lacks_item, lacks_store, stays, asks_more, left_to_return};
ghost use Rattle.stock_model.specs.LineViews.{seen};
ghost use Rattle.stock_model.specs.VoucherLines.{lines_of};

use crate::line_views::{line_at, line_count};
use crate::names::{Names, Returns};
use crate::seen::{LineItem, LineView};
use crate::target_lines::target_line;
use crate::targets::NamedTarget;
use crate::vouchers::What;
use stock_nums::limits::MAX_LINES;

/// What a line is tested for.
#[derive(Clone, Copy)]
pub enum LineTest {
    /// It names an item that there is not.
    LacksItem,
    /// It names a warehouse that there is not.
    LacksStore,
    /// Its goods go from a warehouse to the same.
    Stays,
    /// It asks to return more than is left.
    AsksMore,
}

/// The number of the first line that has what is tested, from 1.
pub(crate) fn first_line<N: Returns>(test: LineTest, names: &N, what: &What) -> Option<u32>
    requires { length (lines_of what.now) ≤ MAX_LINES }
    ensures { result ≡ first_line (line_test test (N.journal names.now)) 1 (lines_of what.now) }
{
    for index in 0..line_count(what) {
        if has_at(test, names, what, index) {
            return Some(index as u32 + 1);
        }
    }
    None
}

// Whether the line at this index, from 0, has what is tested.
fn has_at<N: Returns>(test: LineTest, names: &N, what: &What, index: usize) -> bool
    ensures { result ≡ option_map_or (line_test test (N.journal names.now)) (slice_get (lines_of what.now) index) false }
{
    match line_at(what, index) {
        Some(line) => has(test, names, &line),
        None => false,
    }
}

fn has<N: Returns>(test: LineTest, names: &N, line: &LineView<'_>) -> bool
    ensures { result ≡ line_test test (N.journal names.now) (seen line.now) }
{
    match test {
        LineTest::LacksItem => lacks_item(names, line),
        LineTest::LacksStore => lacks_store(names, line),
        LineTest::Stays => stays(line),
        LineTest::AsksMore => asks_more(names, line),
    }
}

fn lacks_item<N: Names>(names: &N, line: &LineView<'_>) -> bool
    ensures { result ≡ lacks_item (N.journal names.now) (seen line.now) }
{
    match line.item {
        LineItem::Coded(code) => names.item_with(code).is_none(),
        LineItem::OfTarget(_) => false,
    }
}

fn lacks_store<N: Names>(names: &N, line: &LineView<'_>) -> bool
    ensures { result ≡ lacks_store (N.journal names.now) (seen line.now) }
{
    if names.store_with(line.store).is_none() {
        return true;
    }
    match line.second {
        Some(second) => names.store_with(second).is_none(),
        None => false,
    }
}

fn stays(line: &LineView<'_>) -> bool
    ensures { result ≡ stays (seen line.now) }
{
    match line.second {
        Some(second) => line.store == second,
        None => false,
    }
}

fn asks_more<N: Returns>(names: &N, line: &LineView<'_>) -> bool
    ensures { result ≡ asks_more (N.journal names.now) (seen line.now) }
{
    match line.item {
        LineItem::Coded(_) => false,
        LineItem::OfTarget(named) => left_to_return(names, named) < line.qty.0,
    }
}

/// How many units of a target are left to be returned: its units less those of all returns.
pub(crate) fn left_to_return<N: Returns>(names: &N, named: NamedTarget) -> u64
    ensures { result ≡ left_to_return (N.journal names.now) named }
{
    match target_line(names, named) {
        Some(line) => line.qty.0.saturating_sub(names.returned(named.target).0),
        None => 0,
    }
}
