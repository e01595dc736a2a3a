//! Closed books: up to which moment the records of a journal close the past, and what would change it.
ghost use Rattle.std.specs.Prelude.{◌≡◌, Some};
ghost use Rattle.std.specs.List.{list_any};
ghost use Rattle.stock_model.specs.Faults.{was_closed, says_closed, cancels_closed, changes_closed, frozen_fault};
ghost use Rattle.stock_model.specs.Freezing.{closed_by, later_of, later_if_any, frozen, is_closed};
ghost use Rattle.stock_model.specs.VoucherLines.{charged_targets};

use crate::faults::PostFault;
use crate::line_views::moment_of;
use crate::names::{Names, Returns};
use crate::records::Record;
use crate::target_lines::target_moment;
use crate::vouchers::What;
use stock_nums::cause::Target;
use stock_nums::moment::Moment;

/// Up to which moment, this one included, the records close the past. None exactly where none of them closes any. It
/// goes over all of them.
pub fn frozen(records: &[Record]) -> Option<Moment>
    ensures { result ≡ frozen records.now }
{
    let mut until = None;
    for record in records {
        until = frozen_with(until, &record.what);
    }
    until
}

/// Up to which moment the past is closed, where it was closed up to the one before, or not at all, and this is said.
pub fn frozen_with(before: Option<Moment>, what: &What) -> Option<Moment>
    ensures { result ≡ later_if_any before (closed_by what.now) }
{
    match what {
        What::Freeze { until } => Some(later_if_any(before, *until)),
        _ => before,
    }
}

/// Up to which moment the records close the past, where it is closed up to `until`, or not at all, with what is said
/// after them. It goes over the records only where a freeze is taken away.
pub fn frozen_without(until: Option<Moment>, records: &[Record], what: &What) -> Option<Moment>
    requires { until ≡ later_if_any (frozen records.now) (closed_by what.now) }
    ensures { result ≡ frozen records.now }
{
    match what {
        What::Freeze { until: _ } => frozen(records),
        _ => until,
    }
}

// The later of the two, where there was one before.
fn later_if_any(before: Option<Moment>, until: Moment) -> Moment
    ensures { Some result ≡ later_if_any before (Some until) }
{
    match before {
        Some(before) => later_of(before, until),
        None => until,
    }
}

fn later_of(a: Moment, b: Moment) -> Moment
    ensures { result ≡ later_of a b }
{
    if b > a { b } else { a }
}

/// The fault of a voucher that changes what is closed.
pub(crate) fn frozen_fault<N: Returns>(names: &N, what: &What) -> Option<PostFault>
    ensures { result ≡ frozen_fault (N.journal names.now) what.now }
{
    match names.frozen() {
        Some(until) if changes_closed(names, what, until) => Some(PostFault::Frozen { until }),
        _ => None,
    }
}

// Whether the voucher changes what is closed, itself or by taking back one that does.
fn changes_closed<N: Names>(names: &N, what: &What, until: Moment) -> bool
    ensures { result ≡ changes_closed (N.journal names.now) what.now until }
{
    says_closed(names, until, what) || cancels_closed(names, until, what)
}

// Whether the voucher moves goods at a moment that is closed, or charges goods that were received at one.
fn says_closed<N: Names>(names: &N, until: Moment, what: &What) -> bool
    ensures { result ≡ says_closed (N.journal names.now) until what.now }
{
    match moment_of(what) {
        Some(at) if is_closed(until, at) => true,
        _ => charges_closed(names, what, until),
    }
}

// Whether what is taken back moved goods at a moment that is closed, or charged goods that were received at one.
fn cancels_closed<N: Names>(names: &N, until: Moment, what: &What) -> bool
    ensures { result ≡ cancels_closed (N.journal names.now) until what.now }
{
    match what {
        What::Cancel { target } => match names.record_at(*target) {
            Some(record) => says_closed(names, until, &record.what),
            None => false,
        },
        _ => false,
    }
}

// Whether the voucher charges goods that were received at a moment that is closed.
fn charges_closed<N: Names>(names: &N, what: &What, until: Moment) -> bool
    ensures { result ≡ list_any (was_closed (N.journal names.now) until) (charged_targets what.now) }
{
    match what {
        What::Landed {
            charge: _,
            basis: _,
            targets,
        } => is_one_closed(names, targets.as_slice(), until),
        _ => false,
    }
}

// Whether one of the targets is of a voucher of a closed moment.
fn is_one_closed<N: Names>(names: &N, targets: &[Target], until: Moment) -> bool
    ensures { result ≡ list_any (was_closed (N.journal names.now) until) targets.now }
{
    for target in targets {
        if was_closed(names, *target, until) {
            return true;
        }
    }
    false
}

// Whether the target is of a voucher of a closed moment.
fn was_closed<N: Names>(names: &N, target: Target, until: Moment) -> bool
    ensures { result ≡ was_closed (N.journal names.now) until target }
{
    match target_moment(names, target) {
        Some(at) => is_closed(until, at),
        None => false,
    }
}

// Whether the moment is closed, where the past is closed up to the other.
fn is_closed(until: Moment, at: Moment) -> bool
    ensures { result ≡ is_closed until at }
{
    at <= until
}
