//! The lines of earlier vouchers that a voucher names, and the items of lines.
ghost use Rattle.std.specs.Prelude.{◌≡◌};
ghost use Rattle.std.specs.Option.{option_map};
ghost use Rattle.stock_model.specs.LineViews.{seen};
ghost use Rattle.stock_model.specs.TargetLines.{target_line, target_moment, coded_item, line_found};
ghost use Rattle.stock_model.specs.VoucherLines.{is_of_kind};

use crate::line_views::{is_sold, line_at, moment_of};
use crate::names::Names;
use crate::seen::{LineItem, LineView};
use crate::targets::{NamedTarget, TargetKind};
use crate::vouchers::What;
use stock_nums::cause::{Method, Target};
use stock_nums::moment::Moment;
use stock_nums::numbers::ItemNo;

/// The line that is named. None exactly where it is no line of an accepted voucher of the kind.
pub(crate) fn target_line<N: Names>(names: &N, named: NamedTarget) -> Option<LineView<'_>>
    ensures { option_map seen result ≡ target_line (N.journal names.now) named }
{
    let Some(record) = names.record_at(named.target.voucher) else {
        return None;
    };
    if named.target.line == 0 || !is_of_kind(named.kind, &record.what) {
        return None;
    }
    line_at(&record.what, named.target.line as usize - 1)
}

/// The moment of the voucher that a target is a line of. None exactly where no record with the number has one.
pub(crate) fn target_moment<N: Names>(names: &N, target: Target) -> Option<Moment>
    ensures { result ≡ target_moment (N.journal names.now) target }
{
    match names.record_at(target.voucher) {
        Some(record) => moment_of(&record.what),
        None => None,
    }
}

/// The line that the line's item is of: the line itself, or the target that it names.
pub(crate) fn line_found<'a, N: Names>(names: &'a N, line: &LineView<'a>) -> Option<LineView<'a>>
    ensures { option_map seen result ≡ line_found (N.journal names.now) (seen line.now) }
{
    match line.item {
        LineItem::Coded(_) => Some(*line),
        LineItem::OfTarget(named) => target_line(names, named),
    }
}

/// The item whose code the line has.
pub(crate) fn coded_item<N: Names>(names: &N, line: &LineView<'_>) -> Option<(ItemNo, Method)>
    ensures { result ≡ coded_item (N.journal names.now) (seen line.now).item }
{
    match line.item {
        LineItem::Coded(code) => names.item_with(code),
        LineItem::OfTarget(_) => None,
    }
}

// Whether the voucher is of the kind that a target has to be of.
fn is_of_kind(kind: TargetKind, what: &What) -> bool
    ensures { result ≡ is_of_kind kind what.now }
{
    match what {
        What::Issue {
            at: _,
            purpose,
            lines: _,
        } => kind == TargetKind::OfSale && is_sold(*purpose),
        What::Receipt { at: _, lines: _ } => kind == TargetKind::OfReceipt,
        _ => false,
    }
}
