//! Whether what two records say is equal: of each kind of record whether a record is of it and says this.
ghost use Rattle.std.specs.Prelude.{◌≡◌, ◌↔◌, IsTrue};
ghost use Rattle.stock_model.specs.declared.vouchers.What.TheVariants.{Item, Store, Receipt, Issue, Transfer, CustomerReturn, SupplierReturn, Landed, Freeze, Cancel};

use crate::lines::are_same;
use crate::parts::{is_same_code, is_same_moment};
use stock_model::vouchers::{
    Basis, IssueLine, Purpose, ReceiptLine, ReturnLine, TransferLine, What,
};
use stock_nums::cause::{Method, Target};
use stock_nums::code::Code;
use stock_nums::moment::Moment;
use stock_nums::numbers::{AccountNo, Minor, RecordNo};

/// Whether the two say the same.
pub(crate) fn is_same(one: &What, other: &What) -> bool
    ensures { IsTrue result ↔ (one.now ≡ other.now) }
{
    match one {
        What::Item { code, method } => is_item(other, code, *method),
        What::Store { code, account } => is_store(other, code, *account),
        What::Receipt { at, lines } => is_receipt(other, *at, lines.as_slice()),
        What::Issue { at, purpose, lines } => is_issue(other, *at, *purpose, lines.as_slice()),
        What::Transfer { at, lines } => is_transfer(other, *at, lines.as_slice()),
        What::CustomerReturn { at, lines } => is_customer_return(other, *at, lines.as_slice()),
        What::SupplierReturn { at, lines } => is_supplier_return(other, *at, lines.as_slice()),
        What::Landed {
            charge,
            basis,
            targets,
        } => is_landed(other, *charge, *basis, targets.as_slice()),
        What::Freeze { until } => is_freeze(other, *until),
        What::Cancel { target } => is_cancel(other, *target),
    }
}

// Whether it is this new item.
fn is_item(what: &What, code: &Code, method: Method) -> bool
    ensures { IsTrue result ↔ (Item code.now method ≡ what.now) }
{
    match what {
        What::Item {
            code: other,
            method: by,
        } => is_same_code(code, other) && method == *by,
        _ => false,
    }
}

// Whether it is this new warehouse.
fn is_store(what: &What, code: &Code, account: AccountNo) -> bool
    ensures { IsTrue result ↔ (Store code.now account ≡ what.now) }
{
    match what {
        What::Store {
            code: other,
            account: to,
        } => is_same_code(code, other) && account == *to,
        _ => false,
    }
}

// Whether it is a receipt at this moment of these lines.
fn is_receipt(what: &What, at: Moment, lines: &[ReceiptLine]) -> bool
    ensures { IsTrue result ↔ (Receipt at lines.now ≡ what.now) }
{
    match what {
        What::Receipt {
            at: then,
            lines: others,
        } => is_same_moment(at, *then) && are_same(lines, others.as_slice()),
        _ => false,
    }
}

// Whether it is an issue at this moment, for this purpose, of these lines.
fn is_issue(what: &What, at: Moment, purpose: Purpose, lines: &[IssueLine]) -> bool
    ensures { IsTrue result ↔ (Issue at purpose lines.now ≡ what.now) }
{
    match what {
        What::Issue {
            at: then,
            purpose: why,
            lines: others,
        } => is_same_moment(at, *then) && purpose == *why && are_same(lines, others.as_slice()),
        _ => false,
    }
}

// Whether it is a transfer at this moment of these lines.
fn is_transfer(what: &What, at: Moment, lines: &[TransferLine]) -> bool
    ensures { IsTrue result ↔ (Transfer at lines.now ≡ what.now) }
{
    match what {
        What::Transfer {
            at: then,
            lines: others,
        } => is_same_moment(at, *then) && are_same(lines, others.as_slice()),
        _ => false,
    }
}

// Whether it is a return of customers at this moment of these lines.
fn is_customer_return(what: &What, at: Moment, lines: &[ReturnLine]) -> bool
    ensures { IsTrue result ↔ (CustomerReturn at lines.now ≡ what.now) }
{
    match what {
        What::CustomerReturn {
            at: then,
            lines: others,
        } => is_same_moment(at, *then) && are_same(lines, others.as_slice()),
        _ => false,
    }
}

// Whether it is a return to suppliers at this moment of these lines.
fn is_supplier_return(what: &What, at: Moment, lines: &[ReturnLine]) -> bool
    ensures { IsTrue result ↔ (SupplierReturn at lines.now ≡ what.now) }
{
    match what {
        What::SupplierReturn {
            at: then,
            lines: others,
        } => is_same_moment(at, *then) && are_same(lines, others.as_slice()),
        _ => false,
    }
}

// Whether it is this charge, which is parted over these targets by this number of theirs.
fn is_landed(what: &What, charge: Minor, basis: Basis, targets: &[Target]) -> bool
    ensures { IsTrue result ↔ (Landed charge basis targets.now ≡ what.now) }
{
    match what {
        What::Landed {
            charge: other,
            basis: by,
            targets: others,
        } => charge == *other && basis == *by && are_same(targets, others.as_slice()),
        _ => false,
    }
}

// Whether it closes the past up to this moment.
fn is_freeze(what: &What, until: Moment) -> bool
    ensures { IsTrue result ↔ (Freeze until ≡ what.now) }
{
    match what {
        What::Freeze { until: other } => is_same_moment(until, *other),
        _ => false,
    }
}

// Whether it takes this voucher back.
fn is_cancel(what: &What, target: RecordNo) -> bool
    ensures { IsTrue result ↔ (Cancel target ≡ what.now) }
{
    match what {
        What::Cancel { target: other } => target == *other,
        _ => false,
    }
}
