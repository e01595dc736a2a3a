//! What a record says, from the fields of a JSON object.
ghost use Rattle.std.specs.Prelude.{◌≤◌, length, IsTrue, IfOk};
ghost use Rattle.serde_json.specs.View.{view};
ghost use Rattle.stock_model.specs.Limits.{is_within_limits};
ghost use Rattle.voucher_json.specs.Walks.{OrNoMemory};
ghost use Rattle.voucher_json.specs.Records.{IsItem, IsStore, IsDated, IsIssue, IsLanded, IsFreeze, IsCancel, IsWhat};

use crate::fields::{
    amount_field, basis_field, code_field, method_field, moment_field, number_field, purpose_field,
};
use crate::forms::no_other;
use crate::kinds::RecordKind;
use crate::voucher_lines::{VoucherLine, lines_field};
use serde_json::Value;
use std::alloc::Global;
use stock_model::read_faults::{FieldName, ReadFault};
use stock_model::vouchers::What;
use stock_nums::limits::{MAX_LINES, MAX_SAID_ACCOUNT};
use stock_nums::lines::Lines;
use stock_nums::moment::Moment;
use stock_nums::numbers::{AccountNo, RecordNo};

/// What a record of this kind says by an object, which has the shared fields beside those of the kind.
pub fn read_what(
    alloc: Global,
    object: &Value,
    shared: &[FieldName],
    kind: RecordKind,
) -> Result<What, ReadFault>
    ensures outcome { OrNoMemory (IsWhat shared.now kind (view object.now)) result }
    ensures limits { IfOk result (λ what. IsTrue (is_within_limits what)) }
{
    match kind {
        RecordKind::Item => read_item(alloc, object, shared),
        RecordKind::Store => read_store(alloc, object, shared),
        RecordKind::Receipt => {
            let (at, lines) = read_dated(alloc, object, shared)?;
            Ok(What::Receipt { at, lines })
        }
        RecordKind::Issue => read_issue(alloc, object, shared),
        RecordKind::Transfer => {
            let (at, lines) = read_dated(alloc, object, shared)?;
            Ok(What::Transfer { at, lines })
        }
        RecordKind::CustomerReturn => {
            let (at, lines) = read_dated(alloc, object, shared)?;
            Ok(What::CustomerReturn { at, lines })
        }
        RecordKind::SupplierReturn => {
            let (at, lines) = read_dated(alloc, object, shared)?;
            Ok(What::SupplierReturn { at, lines })
        }
        RecordKind::Landed => read_landed(alloc, object, shared),
        RecordKind::Freeze => read_freeze(object, shared),
        RecordKind::Cancel => read_cancel(object, shared),
    }
}

/// The new item that an object says.
fn read_item(alloc: Global, object: &Value, shared: &[FieldName]) -> Result<What, ReadFault>
    ensures outcome { OrNoMemory (IsItem shared.now (view object.now)) result }
    ensures limits { IfOk result (λ what. IsTrue (is_within_limits what)) }
{
    let code = code_field(alloc, object, FieldName::Code, 0)?;
    let method = method_field(object)?;
    no_other(object, shared, &[FieldName::Code, FieldName::Method], 0)?;
    Ok(What::Item { code, method })
}

/// The new warehouse that an object says.
fn read_store(alloc: Global, object: &Value, shared: &[FieldName]) -> Result<What, ReadFault>
    ensures outcome { OrNoMemory (IsStore shared.now (view object.now)) result }
    ensures limits { IfOk result (λ what. IsTrue (is_within_limits what)) }
{
    let code = code_field(alloc, object, FieldName::Code, 0)?;
    let account = number_field(object, FieldName::Account, 0, 0, MAX_SAID_ACCOUNT)?;
    no_other(object, shared, &[FieldName::Code, FieldName::Account], 0)?;
    Ok(What::Store {
        code,
        account: AccountNo(account as u32),
    })
}

/// The moment and the lines of a voucher that has no fields but these.
fn read_dated<L: VoucherLine>(
    alloc: Global,
    object: &Value,
    shared: &[FieldName],
) -> Result<(Moment, Lines<L>), ReadFault>
    ensures outcome { OrNoMemory (IsDated L.table shared.now (view object.now)) result }
    ensures count { IfOk result (λ dated. (1 ≤ length dated.1) × (length dated.1 ≤ MAX_LINES)) }
{
    let at = moment_field(object, FieldName::At)?;
    let lines = lines_field(alloc, object, FieldName::Lines)?;
    no_other(object, shared, &[FieldName::At, FieldName::Lines], 0)?;
    Ok((at, lines))
}

/// The issue that an object says.
fn read_issue(alloc: Global, object: &Value, shared: &[FieldName]) -> Result<What, ReadFault>
    ensures outcome { OrNoMemory (IsIssue shared.now (view object.now)) result }
    ensures limits { IfOk result (λ what. IsTrue (is_within_limits what)) }
{
    let at = moment_field(object, FieldName::At)?;
    let purpose = purpose_field(object)?;
    let lines = lines_field(alloc, object, FieldName::Lines)?;
    let own = [FieldName::At, FieldName::Use, FieldName::Lines];
    no_other(object, shared, &own, 0)?;
    Ok(What::Issue { at, purpose, lines })
}

/// The landed charge that an object says.
fn read_landed(alloc: Global, object: &Value, shared: &[FieldName]) -> Result<What, ReadFault>
    ensures outcome { OrNoMemory (IsLanded shared.now (view object.now)) result }
    ensures limits { IfOk result (λ what. IsTrue (is_within_limits what)) }
{
    let charge = amount_field(object, FieldName::Charge, 0)?;
    let basis = basis_field(object)?;
    let targets = lines_field(alloc, object, FieldName::Targets)?;
    let own = [FieldName::Charge, FieldName::Basis, FieldName::Targets];
    no_other(object, shared, &own, 0)?;
    Ok(What::Landed {
        charge,
        basis,
        targets,
    })
}

/// The freeze that an object says.
fn read_freeze(object: &Value, shared: &[FieldName]) -> Result<What, ReadFault>
    ensures outcome { OrNoMemory (IsFreeze shared.now (view object.now)) result }
    ensures limits { IfOk result (λ what. IsTrue (is_within_limits what)) }
{
    let until = moment_field(object, FieldName::Until)?;
    no_other(object, shared, &[FieldName::Until], 0)?;
    Ok(What::Freeze { until })
}

/// The cancel that an object says.
fn read_cancel(object: &Value, shared: &[FieldName]) -> Result<What, ReadFault>
    ensures outcome { OrNoMemory (IsCancel shared.now (view object.now)) result }
    ensures limits { IfOk result (λ what. IsTrue (is_within_limits what)) }
{
    let number = number_field(object, FieldName::Record, 0, 1, 4_294_967_295)?;
    no_other(object, shared, &[FieldName::Record], 0)?;
    Ok(What::Cancel {
        target: RecordNo(number as u32),
    })
}
