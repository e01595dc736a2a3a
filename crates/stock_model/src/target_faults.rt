//! The first line of an earlier voucher that a voucher names and that has a fault.
ghost use Rattle.std.specs.Prelude.{◌≡◌, ◌≤◌, false, [], length, take, slice_get};
ghost use Rattle.std.specs.Option.{option_map_or};
ghost use Rattle.stock_model.specs.Faults.{first_line, first_repeated, target_test, lacks_target, comes_later, is_among, name_one_line};
ghost use Rattle.stock_model.specs.VoucherLines.{targets_of};

use crate::line_views::{target_at, target_count};
use crate::names::{Names, Returns};
use crate::target_lines::{target_line, target_moment};
use crate::targets::NamedTarget;
use crate::vouchers::What;
use stock_nums::limits::MAX_LINES;
use stock_nums::moment::Moment;

/// What a target is tested for.
#[derive(Clone, Copy)]
pub enum TargetTest {
    /// It is no line of an accepted voucher of its kind that is in force.
    IsUnknown,
    /// It is of a voucher of a later moment than this.
    ComesLater(Moment),
}

/// The number of the first target that has what is tested, from 1.
pub(crate) fn first_target<N: Returns>(test: TargetTest, names: &N, what: &What) -> Option<u32>
    requires { length (targets_of what.now) ≤ MAX_LINES }
    ensures { result ≡ first_line (target_test test (N.journal names.now)) 1 (targets_of what.now) }
{
    for index in 0..target_count(what) {
        if has_at(test, names, what, index) {
            return Some(index as u32 + 1);
        }
    }
    None
}

// Whether the target at this index, from 0, has what is tested.
fn has_at<N: Returns>(test: TargetTest, names: &N, what: &What, index: usize) -> bool
    ensures { result ≡ option_map_or (target_test test (N.journal names.now)) (slice_get (targets_of what.now) index) false }
{
    match target_at(what, index) {
        Some(named) => has(test, names, named),
        None => false,
    }
}

fn has<N: Returns>(test: TargetTest, names: &N, named: NamedTarget) -> bool
    ensures { result ≡ target_test test (N.journal names.now) named }
{
    match test {
        TargetTest::IsUnknown => lacks_target(names, named),
        TargetTest::ComesLater(at) => comes_later(names, at, named),
    }
}

fn lacks_target<N: Returns>(names: &N, named: NamedTarget) -> bool
    ensures { result ≡ lacks_target (N.journal names.now) named }
{
    target_line(names, named).is_none() || !names.is_live(named.target.voucher)
}

fn comes_later<N: Names>(names: &N, at: Moment, named: NamedTarget) -> bool
    ensures { result ≡ comes_later (N.journal names.now) at named }
{
    match target_moment(names, named.target) {
        Some(moment) => moment > at,
        None => false,
    }
}

/// The number of the first target that is the same line as one before it, from 1.
pub(crate) fn first_repeated(what: &What) -> Option<u32>
    requires { length (targets_of what.now) ≤ MAX_LINES }
    ensures { result ≡ first_repeated [] 1 (targets_of what.now) }
{
    for index in 0..target_count(what) {
        if is_repeated_at(what, index) {
            return Some(index as u32 + 1);
        }
    }
    None
}

// Whether the target at this index, from 0, is the same line as one before it.
fn is_repeated_at(what: &What, index: usize) -> bool
    ensures { result ≡ option_map_or (is_among (take index (targets_of what.now))) (slice_get (targets_of what.now) index) false }
{
    match target_at(what, index) {
        Some(named) => is_among_first(what, index, named),
        None => false,
    }
}

// Whether the target is the same line as one of the first so many.
fn is_among_first(what: &What, count: usize, named: NamedTarget) -> bool
    ensures { result ≡ is_among (take count (targets_of what.now)) named }
{
    for index in 0..count {
        if is_line_at(what, index, named) {
            return true;
        }
    }
    false
}

// Whether the target at this index, from 0, is the same line.
fn is_line_at(what: &What, index: usize, named: NamedTarget) -> bool
    ensures { result ≡ option_map_or (name_one_line named) (slice_get (targets_of what.now) index) false }
{
    match target_at(what, index) {
        Some(other) => named.target == other.target,
        None => false,
    }
}
