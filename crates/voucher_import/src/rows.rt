//! The columns of a row.
ghost use Rattle.std.specs.Prelude.{◌≡◌, ◌↔◌, [], get_or, IsTrue};
ghost use Rattle.csv.specs.Records.{fields_of};
ghost use Rattle.voucher_import.specs.Rows.{head_row};

use csv::ByteRecord;

/// How many columns there are.
pub(crate) const COLUMNS: usize = 8;

pub(crate) const VOUCHER: usize = 0;

pub(crate) const DO: usize = 1;

pub(crate) const AT: usize = 2;

pub(crate) const ITEM: usize = 3;

pub(crate) const STORE: usize = 4;

pub(crate) const TO: usize = 5;

pub(crate) const QTY: usize = 6;

pub(crate) const AMOUNT: usize = 7;

/// The field of a row in a column. It is empty where the row ends before the column.
pub(crate) fn field(row: &ByteRecord, column: usize) -> &[u8]
    ensures { result.now ≡ get_or (fields_of row.now) column [] }
{
    match row.get(column) {
        Some(text) => text,
        None => &[],
    }
}

/// Whether a row is the names of the columns.
pub(crate) fn is_head(row: &ByteRecord) -> bool
    ensures { IsTrue result ↔ (fields_of row.now ≡ head_row) }
{
    row.len() == COLUMNS
        && field(row, VOUCHER) == b"voucher".as_slice()
        && field(row, DO) == b"do".as_slice()
        && field(row, AT) == b"at".as_slice()
        && field(row, ITEM) == b"item".as_slice()
        && field(row, STORE) == b"store".as_slice()
        && field(row, TO) == b"to".as_slice()
        && field(row, QTY) == b"qty".as_slice()
        && field(row, AMOUNT) == b"amount".as_slice()
}
