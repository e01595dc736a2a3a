//! Why a record is refused, whatever room there is.
ghost use Rattle.std.specs.Prelude.{◌≡◌, ◌<◌, ◌≤◌, length, if◌then◌else◌, Some, None};
ghost use Rattle.stock_nums.specs.Accounts.{is_store_account};
ghost use Rattle.stock_nums.specs.Codes.{is_code};
ghost use Rattle.stock_model.specs.Faults.{master_fault, lines_fault, link_later, over_return, over_return_at, left_to_line, targets_fault, voucher_fault};
ghost use Rattle.stock_model.specs.LineViews.{seen};
ghost use Rattle.stock_model.specs.VoucherLines.{lines_of, targets_of};

use crate::cancelling::{linked, not_live};
use crate::faults::PostFault;
use crate::freezing::frozen_fault;
use crate::landed_weights::has_no_basis;
use crate::line_faults::{LineTest, first_line, left_to_return};
use crate::line_views::{line_at, moment_of};
use crate::names::{Names, Returns};
use crate::records::Record;
use crate::seen::{LineItem, LineView};
use crate::target_faults::{TargetTest, first_repeated, first_target};
use crate::vouchers::What;
use stock_nums::code::Code;
use stock_nums::limits::MAX_LINES;
use stock_nums::numbers::{AccountNo, Qty};

/// The first fault of what a record says, read as the next one of the journal that may be named. None exactly where
/// there is none. It takes no memory.
pub fn voucher_fault<N: Returns>(names: &N, item: &Record) -> Option<PostFault>
    ensures { result ≡ voucher_fault (N.journal names.now) item.now.what }
{
    if let Some(fault) = master_fault(names, &item.what) {
        return Some(fault);
    }
    if let Some(fault) = lines_fault(names, &item.what) {
        return Some(fault);
    }
    if let Some(fault) = targets_fault(names, &item.what) {
        return Some(fault);
    }
    frozen_fault(names, &item.what)
}

// The first fault of a new item or a new warehouse.
fn master_fault<N: Names>(names: &N, what: &What) -> Option<PostFault>
    ensures { result ≡ master_fault (N.journal names.now) what.now }
{
    match what {
        What::Item { code, method: _ } => code_fault(names.item_with(code).is_some(), code),
        What::Store { code, account } => {
            store_fault(names.store_with(code).is_some(), code, *account)
        }
        _ => None,
    }
}

// The fault of a new code, which may be taken.
fn code_fault(taken: bool, code: &Code) -> Option<PostFault>
    ensures { result ≡ (if taken then Some PostFault.CodeTaken else (if is_code code.now then None else Some PostFault.CodeShape)) }
{
    if taken {
        Some(PostFault::CodeTaken)
    } else if code.is_well_formed() {
        None
    } else {
        Some(PostFault::CodeShape)
    }
}

// The fault of a new warehouse.
fn store_fault(taken: bool, code: &Code, account: AccountNo) -> Option<PostFault>
    ensures { result ≡ (if taken then Some PostFault.CodeTaken else (if is_code code.now then (if is_store_account account.0 then None else Some PostFault.AccountRange) else Some PostFault.CodeShape)) }
{
    if let Some(fault) = code_fault(taken, code) {
        return Some(fault);
    }
    if !account.is_of_store() {
        return Some(PostFault::AccountRange);
    }
    None
}

// The first fault of the items and warehouses that lines name.
fn lines_fault<N: Returns>(names: &N, what: &What) -> Option<PostFault>
    requires { length (lines_of what.now) ≤ MAX_LINES }
    ensures { result ≡ lines_fault (N.journal names.now) what.now }
{
    if let Some(line) = first_line(LineTest::LacksItem, names, what) {
        return Some(PostFault::UnknownItem { line });
    }
    if let Some(line) = first_line(LineTest::LacksStore, names, what) {
        return Some(PostFault::UnknownStore { line });
    }
    match first_line(LineTest::Stays, names, what) {
        Some(line) => Some(PostFault::SameStore { line }),
        None => None,
    }
}

// The first fault of the lines of earlier vouchers that the voucher names.
fn targets_fault<N: Returns>(names: &N, what: &What) -> Option<PostFault>
    requires lines { length (lines_of what.now) ≤ MAX_LINES }
    requires targets { length (targets_of what.now) ≤ MAX_LINES }
    ensures { result ≡ targets_fault (N.journal names.now) what.now }
{
    if let Some(line) = first_target(TargetTest::IsUnknown, names, what) {
        return Some(PostFault::UnknownTarget { line });
    }
    if let Some(fault) = not_live(names, what) {
        return Some(fault);
    }
    if let Some(fault) = linked(names, what) {
        return Some(fault);
    }
    if let Some(fault) = link_later(names, what) {
        return Some(fault);
    }
    if let Some(line) = first_repeated(what) {
        return Some(PostFault::RepeatedTarget { line });
    }
    if let Some(fault) = over_return(names, what) {
        return Some(fault);
    }
    if has_no_basis(names, what) {
        return Some(PostFault::NoBasis);
    }
    None
}

// The first target that is of a later moment than a return.
fn link_later<N: Returns>(names: &N, what: &What) -> Option<PostFault>
    requires { length (targets_of what.now) ≤ MAX_LINES }
    ensures { result ≡ link_later (N.journal names.now) what.now }
{
    let Some(at) = moment_of(what) else {
        return None;
    };
    match first_target(TargetTest::ComesLater(at), names, what) {
        Some(line) => Some(PostFault::LinkLater { line }),
        None => None,
    }
}

// The first line that asks to return more than is left.
fn over_return<N: Returns>(names: &N, what: &What) -> Option<PostFault>
    requires { length (lines_of what.now) ≤ MAX_LINES }
    ensures { result ≡ over_return (N.journal names.now) what.now }
{
    match first_line(LineTest::AsksMore, names, what) {
        Some(line) => Some(over_return_at(names, what, line)),
        None => None,
    }
}

// What the line with this number, from 1, asks for, and what is left to it.
fn over_return_at<N: Returns>(names: &N, what: &What, line: u32) -> PostFault
    requires { 0 < line }
    ensures { result ≡ over_return_at (N.journal names.now) (lines_of what.now) line }
{
    let (asked, left) = match line_at(what, line as usize - 1) {
        Some(found) => (found.qty, left_to_line(names, &found)),
        None => (Qty(0), Qty(0)),
    };
    PostFault::OverReturn { line, asked, left }
}

// How many units are left to what a line is of, 0 where that is no target.
fn left_to_line<N: Returns>(names: &N, line: &LineView<'_>) -> Qty
    ensures { result.0 ≡ left_to_line (N.journal names.now) (seen line.now) }
{
    match line.item {
        LineItem::Coded(_) => Qty(0),
        LineItem::OfTarget(named) => Qty(left_to_return(names, named)),
    }
}
