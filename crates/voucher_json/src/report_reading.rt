//! What a report asks for, from the fields of a JSON object.
ghost use Rattle.serde_json.specs.View.{view};
ghost use Rattle.stock_model.specs.declared.queries.Sheet.{Sheet};
ghost use Rattle.voucher_json.specs.Fields.{NoOther};
ghost use Rattle.voucher_json.specs.Walks.{OrNoMemory};
ghost use Rattle.voucher_json.specs.Requests.{IsByKey, IsOfAccounts, IsOfVoucher, IsScope, fields_of, IsReport};

use crate::fields::{
    format_field, number_field, optional_code, optional_moment, optional_number, sheet_kind_field,
};
use crate::forms::no_other;
use crate::kinds::SheetKind;
use serde_json::Value;
use std::alloc::Global;
use stock_model::queries::{Format, Query, Sheet};
use stock_model::read_faults::{FieldName, ReadFault};
use stock_nums::code::Code;
use stock_nums::moment::Moment;
use stock_nums::numbers::RecordNo;

/// What a sheet shows.
#[derive(Drop)]
pub struct Scope {
    /// Which sheet it is. That of a record has the record's number.
    pub sheet: Sheet,
    /// The last moment whose movements are shown, or all of them.
    pub until: Option<Moment>,
    /// The code of the one item that is shown, or all.
    pub item: Option<Code>,
    /// The code of the one warehouse that is shown, or all.
    pub store: Option<Code>,
}

/// The report that an object asks for.
pub fn read_report(alloc: Global, object: &Value) -> Result<Query, ReadFault>
    ensures { OrNoMemory (IsReport (view object.now)) result }
{
    let kind = sheet_kind_field(object)?;
    let need = optional_number(object, FieldName::Need, 0, 4_294_967_295)?;
    let scope = read_scope(alloc, object, kind)?;
    let format = format_field(object)?;
    check_fields(object, kind)?;
    Ok(Query {
        sheet: scope.sheet,
        need: RecordNo(need.unwrap_or(0) as u32),
        until: scope.until,
        item: scope.item,
        store: scope.store,
        format: format.unwrap_or(Format::Json),
    })
}

/// What a sheet of this kind shows.
fn read_scope(alloc: Global, object: &Value, kind: SheetKind) -> Result<Scope, ReadFault>
    ensures { OrNoMemory (IsScope kind (view object.now)) result }
{
    match kind {
        SheetKind::Balance => read_by_key(alloc, object, Sheet::Balance),
        SheetKind::Layers => read_by_key(alloc, object, Sheet::Layers),
        SheetKind::Ledger => read_by_key(alloc, object, Sheet::Ledger),
        SheetKind::Accounts => read_of_accounts(object),
        SheetKind::Voucher => read_of_voucher(object),
    }
}

/// What a sheet by items and warehouses shows.
fn read_by_key(alloc: Global, object: &Value, sheet: Sheet) -> Result<Scope, ReadFault>
    ensures { OrNoMemory (IsByKey sheet (view object.now)) result }
{
    let until = optional_moment(object, FieldName::Until)?;
    let item = optional_code(alloc, object, FieldName::Item)?;
    let store = optional_code(alloc, object, FieldName::Store)?;
    Ok(Scope {
        sheet,
        until,
        item,
        store,
    })
}

/// What the sheet of the accounts shows.
fn read_of_accounts(object: &Value) -> Result<Scope, ReadFault>
    ensures { IsOfAccounts (view object.now) result }
{
    let until = optional_moment(object, FieldName::Until)?;
    Ok(Scope {
        sheet: Sheet::Accounts,
        until,
        item: None,
        store: None,
    })
}

/// What the sheet of a record shows.
fn read_of_voucher(object: &Value) -> Result<Scope, ReadFault>
    ensures { IsOfVoucher (view object.now) result }
{
    let number = number_field(object, FieldName::Record, 0, 1, 4_294_967_295)?;
    Ok(Scope {
        sheet: Sheet::Voucher(RecordNo(number as u32)),
        until: None,
        item: None,
        store: None,
    })
}

/// Whether the object has no fields but those of a report on a sheet of this kind.
fn check_fields(object: &Value, kind: SheetKind) -> Result<(), ReadFault>
    ensures { NoOther (fields_of kind) 0 (view object.now) result }
{
    let shared = [FieldName::Do, FieldName::Of, FieldName::Need];
    match kind {
        SheetKind::Balance | SheetKind::Layers | SheetKind::Ledger => {
            let own = [
                FieldName::Until,
                FieldName::Item,
                FieldName::Store,
                FieldName::As,
            ];
            no_other(object, &shared, &own, 0)
        }
        SheetKind::Accounts => no_other(object, &shared, &[FieldName::Until, FieldName::As], 0),
        SheetKind::Voucher => no_other(object, &shared, &[FieldName::Record, FieldName::As], 0),
    }
}
