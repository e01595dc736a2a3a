//! The lines of a voucher and the targets that it names, whatever its kind, seen one by one without a copy.
ghost use Rattle.std.specs.Prelude.{◌≡◌, length, slice_get};
ghost use Rattle.std.specs.Option.{option_map};
ghost use Rattle.stock_model.specs.LineViews.{seen};
ghost use Rattle.stock_model.specs.VoucherLines.{lines_of, targets_of, moment_of, is_sold, receipt_line, issue_line, transfer_line, return_line, return_target, landed_target};
ghost use Rattle.stock_model.specs.declared.targets.TargetKind.TheVariants.{OfSale, OfReceipt};

use crate::seen::{LineItem, LineView};
use crate::targets::{NamedTarget, TargetKind};
use crate::vouchers::{IssueLine, Purpose, ReceiptLine, ReturnLine, TransferLine, What};
use stock_nums::cause::Target;
use stock_nums::moment::Moment;
use stock_nums::numbers::Minor;

/// The moment at which the voucher moves goods, where it moves some.
pub fn moment_of(what: &What) -> Option<Moment>
    ensures { result ≡ moment_of what.now }
{
    match what {
        What::Receipt { at, lines: _ } => Some(*at),
        What::Issue {
            at,
            purpose: _,
            lines: _,
        } => Some(*at),
        What::Transfer { at, lines: _ } => Some(*at),
        What::CustomerReturn { at, lines: _ } => Some(*at),
        What::SupplierReturn { at, lines: _ } => Some(*at),
        _ => None,
    }
}

/// The line that moves goods at this index, from 0. None exactly where there is none.
pub fn line_at(what: &What, index: usize) -> Option<LineView<'_>>
    ensures { option_map seen result ≡ slice_get (lines_of what.now) index }
{
    match what {
        What::Receipt { at: _, lines } => lines.as_slice().get(index).map(receipt_line),
        What::Issue {
            at: _,
            purpose: _,
            lines,
        } => lines.as_slice().get(index).map(issue_line),
        What::Transfer { at: _, lines } => lines.as_slice().get(index).map(transfer_line),
        What::CustomerReturn { at: _, lines } => {
            lines.as_slice().get(index).map(customer_return_line)
        }
        What::SupplierReturn { at: _, lines } => {
            lines.as_slice().get(index).map(supplier_return_line)
        }
        _ => None,
    }
}

/// How many lines of the voucher move goods.
pub fn line_count(what: &What) -> usize
    ensures { result ≡ length (lines_of what.now) }
{
    match what {
        What::Receipt { at: _, lines } => lines.len(),
        What::Issue {
            at: _,
            purpose: _,
            lines,
        } => lines.len(),
        What::Transfer { at: _, lines } => lines.len(),
        What::CustomerReturn { at: _, lines } => lines.len(),
        What::SupplierReturn { at: _, lines } => lines.len(),
        _ => 0,
    }
}

/// The line of an earlier voucher that the voucher names at this index, from 0. None exactly where there is none.
pub fn target_at(what: &What, index: usize) -> Option<NamedTarget>
    ensures { result ≡ slice_get (targets_of what.now) index }
{
    match what {
        What::CustomerReturn { at: _, lines } => {
            lines.as_slice().get(index).map(customer_return_target)
        }
        What::SupplierReturn { at: _, lines } => {
            lines.as_slice().get(index).map(supplier_return_target)
        }
        What::Landed {
            charge: _,
            basis: _,
            targets,
        } => targets.as_slice().get(index).map(landed_target),
        _ => None,
    }
}

/// How many lines of earlier vouchers the voucher names.
pub fn target_count(what: &What) -> usize
    ensures { result ≡ length (targets_of what.now) }
{
    match what {
        What::CustomerReturn { at: _, lines } => lines.len(),
        What::SupplierReturn { at: _, lines } => lines.len(),
        What::Landed {
            charge: _,
            basis: _,
            targets,
        } => targets.len(),
        _ => 0,
    }
}

pub(crate) fn is_sold(purpose: Purpose) -> bool
    ensures { result ≡ is_sold purpose }
{
    purpose == Purpose::Sold
}

fn receipt_line(line: &ReceiptLine) -> LineView<'_>
    ensures { seen result ≡ receipt_line line.now }
{
    LineView {
        item: LineItem::Coded(&line.item),
        store: &line.store,
        second: None,
        qty: line.qty,
        amount: line.amount,
    }
}

fn issue_line(line: &IssueLine) -> LineView<'_>
    ensures { seen result ≡ issue_line line.now }
{
    LineView {
        item: LineItem::Coded(&line.item),
        store: &line.store,
        second: None,
        qty: line.qty,
        amount: Minor(0),
    }
}

fn transfer_line(line: &TransferLine) -> LineView<'_>
    ensures { seen result ≡ transfer_line line.now }
{
    LineView {
        item: LineItem::Coded(&line.item),
        store: &line.from,
        second: Some(&line.to),
        qty: line.qty,
        amount: Minor(0),
    }
}

fn return_line(kind: TargetKind, line: &ReturnLine) -> LineView<'_>
    ensures { seen result ≡ return_line kind line.now }
{
    LineView {
        item: LineItem::OfTarget(return_target(kind, line)),
        store: &line.store,
        second: None,
        qty: line.qty,
        amount: Minor(0),
    }
}

fn customer_return_line(line: &ReturnLine) -> LineView<'_>
    ensures { seen result ≡ return_line OfSale line.now }
{
    return_line(TargetKind::OfSale, line)
}

fn supplier_return_line(line: &ReturnLine) -> LineView<'_>
    ensures { seen result ≡ return_line OfReceipt line.now }
{
    return_line(TargetKind::OfReceipt, line)
}

fn return_target(kind: TargetKind, line: &ReturnLine) -> NamedTarget
    ensures { result ≡ return_target kind line.now }
{
    NamedTarget {
        kind,
        target: line.target,
    }
}

fn customer_return_target(line: &ReturnLine) -> NamedTarget
    ensures { result ≡ return_target OfSale line.now }
{
    return_target(TargetKind::OfSale, line)
}

fn supplier_return_target(line: &ReturnLine) -> NamedTarget
    ensures { result ≡ return_target OfReceipt line.now }
{
    return_target(TargetKind::OfReceipt, line)
}

pub(crate) fn landed_target(target: &Target) -> NamedTarget
    ensures { result ≡ landed_target target.now }
{
    NamedTarget {
        kind: TargetKind::OfReceipt,
        target: *target,
    }
}
