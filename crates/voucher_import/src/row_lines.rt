//! The line that a row says, for each kind of voucher.
ghost use Rattle.std.specs.Prelude.{◌≡◌, ◌↔◌, Bool, true, false, List, Some, IsTrue};
ghost use Rattle.std.specs.List.{AllZip, list_any};
ghost use Rattle.csv.specs.Records.{fields_of};
ghost use Rattle.voucher_import.specs.CountKeys.{has_same_key};
ghost use Rattle.voucher_import.specs.Kinds.{kind_of, is_receipt, is_issue, is_transfer, is_count};
ghost use Rattle.voucher_import.specs.Reading.{Checks};
ghost use Rattle.voucher_import.specs.RowFaults.{has_same_place, line_fields};
ghost use Rattle.voucher_import.specs.Rows.{Row, do_of};
ghost use Rattle.voucher_import.specs.SheetVouchers.{IsReceiptLine, IsIssueLine, IsTransferLine, IsCountLine};
ghost use Rattle.voucher_import.specs.declared.kinds.SheetKind.{SheetKind};
ghost use Rattle.voucher_import.specs.declared.kinds.SheetKind.TheVariants as kind;

use crate::fields::{RowFault, check_empty, read_code, read_number};
use crate::rows::{AMOUNT, ITEM, QTY, STORE, TO, field};
use crate::sheet::{CountLine, SheetField};
use csv::ByteRecord;
use std::alloc::Global;
use stock_model::vouchers::{IssueLine, ReceiptLine, TransferLine};
use stock_nums::limits::{MAX_AMOUNT, MAX_QUANTITY};
use stock_nums::numbers::{Minor, Qty};

/// A line of a voucher of a sheet.
pub(crate) trait RowLine: Drop {
    /// The kinds of vouchers that have such lines.
    ghost has_kind: { SheetKind → Bool };

    /// The line that a row says.
    ghost is_line: { Row → Self → Type 0 };

    /// The line that a row says by itself.
    fn read(alloc: Global, row: &ByteRecord) -> Result<Self, RowFault>
        ensures { (of_kind : SheetKind) → has_kind of_kind ≡ true → kind_of (do_of (fields_of row.now)) ≡ Some of_kind
            → (before : List Row) → Checks before (fields_of row.now) line_fields (is_line (fields_of row.now)) result };

    /// Whether the voucher may not have the line since it has these before it.
    fn repeats(&self, before: &[Self]) -> bool
        ensures { (of_kind : SheetKind) → has_kind of_kind ≡ true → (row : Row) (rows : List Row) → is_line row self.now → AllZip is_line rows before.now
            → (IsTrue result ↔ ((of_kind ≡ kind.Count) × (list_any (has_same_place row) rows ≡ true))) };
}

impl RowLine for ReceiptLine {
    ghost has_kind = { is_receipt };

    ghost is_line = { IsReceiptLine };

    fn read(alloc: Global, row: &ByteRecord) -> Result<ReceiptLine, RowFault> {
        let item = read_code(alloc, field(row, ITEM), SheetField::Item)?;
        let store = read_code(alloc, field(row, STORE), SheetField::Store)?;
        check_empty(field(row, TO), SheetField::To)?;
        let qty = read_number(field(row, QTY), SheetField::Qty, 1, MAX_QUANTITY)?;
        let amount = read_number(field(row, AMOUNT), SheetField::Amount, 0, MAX_AMOUNT)?;
        Ok(ReceiptLine {
            item,
            store,
            qty: Qty(qty),
            amount: Minor(amount as i64),
        })
    }

    fn repeats(&self, _before: &[ReceiptLine]) -> bool {
        false
    }
}

impl RowLine for IssueLine {
    ghost has_kind = { is_issue };

    ghost is_line = { IsIssueLine };

    fn read(alloc: Global, row: &ByteRecord) -> Result<IssueLine, RowFault> {
        let item = read_code(alloc, field(row, ITEM), SheetField::Item)?;
        let store = read_code(alloc, field(row, STORE), SheetField::Store)?;
        check_empty(field(row, TO), SheetField::To)?;
        let qty = read_number(field(row, QTY), SheetField::Qty, 1, MAX_QUANTITY)?;
        check_empty(field(row, AMOUNT), SheetField::Amount)?;
        Ok(IssueLine {
            item,
            store,
            qty: Qty(qty),
        })
    }

    fn repeats(&self, _before: &[IssueLine]) -> bool {
        false
    }
}

impl RowLine for TransferLine {
    ghost has_kind = { is_transfer };

    ghost is_line = { IsTransferLine };

    fn read(alloc: Global, row: &ByteRecord) -> Result<TransferLine, RowFault> {
        let item = read_code(alloc, field(row, ITEM), SheetField::Item)?;
        let from = read_code(alloc, field(row, STORE), SheetField::Store)?;
        let to = read_code(alloc, field(row, TO), SheetField::To)?;
        let qty = read_number(field(row, QTY), SheetField::Qty, 1, MAX_QUANTITY)?;
        check_empty(field(row, AMOUNT), SheetField::Amount)?;
        Ok(TransferLine {
            item,
            from,
            to,
            qty: Qty(qty),
        })
    }

    fn repeats(&self, _before: &[TransferLine]) -> bool {
        false
    }
}

impl RowLine for CountLine {
    ghost has_kind = { is_count };

    ghost is_line = { IsCountLine };

    fn read(alloc: Global, row: &ByteRecord) -> Result<CountLine, RowFault> {
        let item = read_code(alloc, field(row, ITEM), SheetField::Item)?;
        let store = read_code(alloc, field(row, STORE), SheetField::Store)?;
        check_empty(field(row, TO), SheetField::To)?;
        let qty = read_number(field(row, QTY), SheetField::Qty, 0, MAX_QUANTITY)?;
        check_empty(field(row, AMOUNT), SheetField::Amount)?;
        Ok(CountLine {
            item,
            store,
            qty: Qty(qty),
        })
    }

    fn repeats(&self, before: &[CountLine]) -> bool {
        has_key_of(before, self)
    }
}

/// Whether one of the lines is of the item and the warehouse of this one.
fn has_key_of(lines: &[CountLine], this: &CountLine) -> bool
    ensures { result ≡ list_any (has_same_key this.now) lines.now }
{
    lines
        .iter()
        .any(|line| this.item == line.item && this.store == line.store)
}
