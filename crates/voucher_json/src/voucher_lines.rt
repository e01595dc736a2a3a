//! The lines of a voucher, and what a charge is for.
ghost use Rattle.std.specs.Prelude.{◌≡◌, ◌≤◌, map, IfOk, length};
ghost use Rattle.serde_json.specs.View.{view, items_view};
ghost use Rattle.voucher_json.specs.Walks.{Field, Elements, OrNoMemory};
ghost use Rattle.voucher_json.specs.Fields.{IsList};
ghost use Rattle.voucher_json.specs.Records.{receipt_line, issue_line, transfer_line, return_line, target_line};
ghost use Rattle.voucher_json.specs.Tables.{LineTable, IsLine, line_data};

use crate::field_names::field_text;
use crate::fields::{amount_field, code_field, number_field};
use crate::forms::{check_object, elements_in, no_other};
use crate::line_room::with_room;
use serde_json::{Value, json};
use std::alloc::{AllocError, Global};
use stock_model::read_faults::{FieldName, ReadFault};
use stock_model::vouchers::{IssueLine, ReceiptLine, ReturnLine, TransferLine};
use stock_nums::cause::Target;
use stock_nums::limits::{MAX_LINES, MAX_QUANTITY};
use stock_nums::lines::Lines;
use stock_nums::numbers::{Qty, RecordNo};

/// A line of a voucher, or a line that a charge is for: what an element of a list may be.
pub trait VoucherLine: Drop {
    ghost table: { LineTable Self };

    /// The line that the element at this place, from 1, of the list of this name is.
    fn read(alloc: Global, value: &Value, list: FieldName, place: u32) -> Result<Self, ReadFault>
        ensures { OrNoMemory (IsLine table list place (view value.now)) result };

    /// What is written of the line, with the keys in byte order.
    fn value(&self, alloc: Global) -> Result<Value, AllocError>
        ensures { IfOk result (λ value. view value ≡ line_data table self.now) };
}

impl VoucherLine for ReceiptLine {
    ghost table = { receipt_line };

    fn read(
        alloc: Global,
        value: &Value,
        list: FieldName,
        place: u32,
    ) -> Result<ReceiptLine, ReadFault> {
        check_object(value, list, place)?;
        let item = code_field(alloc, value, FieldName::Item, place)?;
        let store = code_field(alloc, value, FieldName::Store, place)?;
        let qty = number_field(value, FieldName::Qty, place, 1, MAX_QUANTITY)?;
        let amount = amount_field(value, FieldName::Amount, place)?;
        let names = [
            FieldName::Item,
            FieldName::Store,
            FieldName::Qty,
            FieldName::Amount,
        ];
        no_other(value, &[], &names, place)?;
        Ok(ReceiptLine {
            item,
            store,
            qty: Qty(qty),
            amount,
        })
    }

    fn value(&self, alloc: Global) -> Result<Value, AllocError> {
        json!(in alloc; {
            "amount": self.amount.0,
            "item": self.item.text(),
            "qty": self.qty.0,
            "store": self.store.text()
        })
    }
}

impl VoucherLine for IssueLine {
    ghost table = { issue_line };

    fn read(
        alloc: Global,
        value: &Value,
        list: FieldName,
        place: u32,
    ) -> Result<IssueLine, ReadFault> {
        check_object(value, list, place)?;
        let item = code_field(alloc, value, FieldName::Item, place)?;
        let store = code_field(alloc, value, FieldName::Store, place)?;
        let qty = number_field(value, FieldName::Qty, place, 1, MAX_QUANTITY)?;
        let names = [FieldName::Item, FieldName::Store, FieldName::Qty];
        no_other(value, &[], &names, place)?;
        Ok(IssueLine {
            item,
            store,
            qty: Qty(qty),
        })
    }

    fn value(&self, alloc: Global) -> Result<Value, AllocError> {
        json!(in alloc; {"item": self.item.text(), "qty": self.qty.0, "store": self.store.text()})
    }
}

impl VoucherLine for TransferLine {
    ghost table = { transfer_line };

    fn read(
        alloc: Global,
        value: &Value,
        list: FieldName,
        place: u32,
    ) -> Result<TransferLine, ReadFault> {
        check_object(value, list, place)?;
        let item = code_field(alloc, value, FieldName::Item, place)?;
        let from = code_field(alloc, value, FieldName::From, place)?;
        let to = code_field(alloc, value, FieldName::To, place)?;
        let qty = number_field(value, FieldName::Qty, place, 1, MAX_QUANTITY)?;
        let names = [
            FieldName::Item,
            FieldName::From,
            FieldName::To,
            FieldName::Qty,
        ];
        no_other(value, &[], &names, place)?;
        Ok(TransferLine {
            item,
            from,
            to,
            qty: Qty(qty),
        })
    }

    fn value(&self, alloc: Global) -> Result<Value, AllocError> {
        json!(in alloc; {
            "from": self.from.text(),
            "item": self.item.text(),
            "qty": self.qty.0,
            "to": self.to.text()
        })
    }
}

impl VoucherLine for ReturnLine {
    ghost table = { return_line };

    fn read(
        alloc: Global,
        value: &Value,
        list: FieldName,
        place: u32,
    ) -> Result<ReturnLine, ReadFault> {
        check_object(value, list, place)?;
        let voucher = number_field(value, FieldName::Record, place, 1, 4_294_967_295)?;
        let line = number_field(value, FieldName::Line, place, 1, MAX_LINES as u64)?;
        let store = code_field(alloc, value, FieldName::Store, place)?;
        let qty = number_field(value, FieldName::Qty, place, 1, MAX_QUANTITY)?;
        let names = [
            FieldName::Record,
            FieldName::Line,
            FieldName::Store,
            FieldName::Qty,
        ];
        no_other(value, &[], &names, place)?;
        Ok(ReturnLine {
            target: Target {
                voucher: RecordNo(voucher as u32),
                line: line as u32,
            },
            store,
            qty: Qty(qty),
        })
    }

    fn value(&self, alloc: Global) -> Result<Value, AllocError> {
        json!(in alloc; {
            "line": self.target.line,
            "qty": self.qty.0,
            "record": self.target.voucher.0,
            "store": self.store.text()
        })
    }
}

impl VoucherLine for Target {
    ghost table = { target_line };

    fn read(
        _alloc: Global,
        value: &Value,
        list: FieldName,
        place: u32,
    ) -> Result<Target, ReadFault> {
        check_object(value, list, place)?;
        let voucher = number_field(value, FieldName::Record, place, 1, 4_294_967_295)?;
        let line = number_field(value, FieldName::Line, place, 1, MAX_LINES as u64)?;
        no_other(value, &[], &[FieldName::Record, FieldName::Line], place)?;
        Ok(Target {
            voucher: RecordNo(voucher as u32),
            line: line as u32,
        })
    }

    fn value(&self, alloc: Global) -> Result<Value, AllocError> {
        json!(in alloc; {"line": self.line, "record": self.voucher.0})
    }
}

/// The lines of the voucher that the object is, by the list of this name.
pub fn lines_field<L: VoucherLine>(
    alloc: Global,
    object: &Value,
    list: FieldName,
) -> Result<Lines<L>, ReadFault>
    ensures outcome { OrNoMemory (Field (IsList (IsLine L.table)) list 0 (view object.now)) result }
    ensures count { IfOk result (λ lines. (1 ≤ length lines) × (length lines ≤ MAX_LINES)) }
{
    match object.get(field_text(list)) {
        Some(value) => lines_in(alloc, value, list),
        None => Err(ReadFault::BadField {
            name: list,
            line: 0,
        }),
    }
}

/// The lines that the list of this name is.
fn lines_in<L: VoucherLine>(
    alloc: Global,
    value: &Value,
    list: FieldName,
) -> Result<Lines<L>, ReadFault>
    ensures outcome { OrNoMemory (IsList (IsLine L.table) list 0 (view value.now)) result }
    ensures count { IfOk result (λ lines. (1 ≤ length lines) × (length lines ≤ MAX_LINES)) }
{
    let values = elements_in(value, list, 0)?;
    read_lines(alloc, values, list)
}

/// The lines that the elements of the list of this name are.
fn read_lines<L: VoucherLine>(
    alloc: Global,
    values: &[Value],
    list: FieldName,
) -> Result<Lines<L>, ReadFault>
    requires { length values.now ≤ MAX_LINES }
    ensures outcome { OrNoMemory (Elements (IsLine L.table) list 1 (items_view values.now)) result }
    ensures count { IfOk result (λ lines. length lines ≡ length values.now) }
{
    let Ok(mut lines) = with_room(alloc, values.len()) else {
        return Err(ReadFault::NoMemory);
    };
    for value in values {
        let line = L::read(alloc, value, list, lines.len() as u32 + 1)?;
        let Ok(()) = lines.push(line) else {
            return Err(ReadFault::NoMemory);
        };
    }
    Ok(lines)
}

/// What is written of the lines.
pub fn lines_value<L: VoucherLine>(alloc: Global, lines: &[L]) -> Result<Vec<Value>, AllocError>
    ensures { IfOk result (λ values. map view values.items ≡ map (line_data L.table) lines.now) }
{
    let mut values = Vec::new(alloc);
    for line in lines {
        values.push(line.value(alloc)?)?;
    }
    Ok(values)
}
