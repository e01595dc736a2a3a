//! Sheets are read as the vouchers and the counts that they say, or their first fault is told.

use std::alloc::Global;
use stock_model::vouchers::{IssueLine, Purpose, ReceiptLine, TransferLine, What};
use stock_nums::lines::Lines;
use stock_nums::moment::Moment;
use voucher_import::reading::read_sheet;
use voucher_import::sheet::{CountLine, SheetFault, SheetField, SheetVoucher};

// The most bytes of a sheet in these tests.
const MOST: usize = 65_536;

const HEAD: &[u8] = b"voucher,do,at,item,store,to,qty,amount\n";

// The item, the warehouse, the second warehouse, the quantity and the amount of a line.
type Line<'a> = (&'a str, &'a str, &'a str, u64, i64);

// The kind, the day and the second, and the lines of a voucher.
type Told<'a> = (&'a str, u32, u32, &'a [Line<'a>]);

/// A line by its parts.
trait Parts {
    fn parts(&self) -> Line<'_>;
}

impl Parts for ReceiptLine {
    fn parts(&self) -> Line<'_> {
        let (item, store) = (self.item.text(), self.store.text());
        (item, store, "", self.qty.0, self.amount.0)
    }
}

impl Parts for IssueLine {
    fn parts(&self) -> Line<'_> {
        (self.item.text(), self.store.text(), "", self.qty.0, 0)
    }
}

impl Parts for TransferLine {
    fn parts(&self) -> Line<'_> {
        let (from, to) = (self.from.text(), self.to.text());
        (self.item.text(), from, to, self.qty.0, 0)
    }
}

impl Parts for CountLine {
    fn parts(&self) -> Line<'_> {
        (self.item.text(), self.store.text(), "", self.qty.0, 0)
    }
}

/// Whether the lines are these.
fn are_told<T: Parts>(lines: &[T], told: &[Line<'_>]) -> bool {
    if lines.len() != told.len() {
        return false;
    }
    for (line, said) in lines.iter().zip(told) {
        if line.parts() != *said {
            return false;
        }
    }
    true
}

/// Whether a voucher is of a kind and has a moment and lines, as it is told.
fn is_told<T: Parts>(kind: &str, at: Moment, lines: &[T], told: Told<'_>) -> bool {
    (kind, at.date, at.second) == (told.0, told.1, told.2) && are_told(lines, told.3)
}

/// Whether a voucher is the one that is told.
fn is_voucher(voucher: &SheetVoucher, told: Told<'_>) -> bool {
    match voucher {
        SheetVoucher::Post(What::Receipt { at, lines }) => {
            is_told("receipt", *at, lines.as_slice(), told)
        }
        SheetVoucher::Post(What::Issue { at, purpose, lines }) => {
            let kind = match purpose {
                Purpose::Sold => "sold",
                Purpose::Used => "used",
            };
            is_told(kind, *at, lines.as_slice(), told)
        }
        SheetVoucher::Post(What::Transfer { at, lines }) => {
            is_told("transfer", *at, lines.as_slice(), told)
        }
        SheetVoucher::Count(sheet) => is_told("count", sheet.at, sheet.lines.as_slice(), told),
        _ => false,
    }
}

/// Reads a short text.
fn read(alloc: Global, text: &[u8]) -> Result<Lines<SheetVoucher>, SheetFault> {
    if text.len() > MOST {
        return Err(SheetFault::NoMemory);
    }
    read_sheet(alloc, text)
}

/// Reads rows under the head.
fn read_under_head(alloc: Global, rows: &[u8]) -> Result<Lines<SheetVoucher>, SheetFault> {
    let mut text = Vec::new(alloc);
    let (Ok(()), Ok(())) = (text.extend_from_slice(HEAD), text.extend_from_slice(rows)) else {
        return Err(SheetFault::NoMemory);
    };
    read(alloc, text.as_slice())
}

/// Whether what is read is the vouchers that are told.
fn are_vouchers(found: Result<Lines<SheetVoucher>, SheetFault>, told: &[Told<'_>]) -> bool {
    let Ok(found) = found else {
        return false;
    };
    if found.len() != told.len() {
        return false;
    }
    for (voucher, said) in found.as_slice().iter().zip(told) {
        if !is_voucher(voucher, *said) {
            return false;
        }
    }
    true
}

/// The fault that is told of rows under the head.
fn fault_of(alloc: Global, rows: &[u8]) -> Option<SheetFault> {
    read_under_head(alloc, rows).err()
}

/// Whether this is wrong first with rows under the head.
fn is_refused(alloc: Global, rows: &[u8], row: u32, field: SheetField) -> bool {
    fault_of(alloc, rows) == Some(SheetFault::BadRow { row, field })
}

const A3: Line<'_> = ("A", "W1", "", 3, 0);

const SOLD: Told<'_> = ("sold", 20_260_103, 32_400, &[A3]);

const TWO_COUNTED: Told<'_> = (
    "count",
    20_260_104,
    32_400,
    &[("A", "W1", "", 5, 0), ("B", "W1", "", 2, 0)],
);

const VOUCHERS: &[(&[u8], &[Told<'_>])] = &[
    (b"", &[]),
    (
        b"v1,sold,2026-01-03T09:00:00,A,W1,,3,\nc1,count,2026-01-04T09:00:00,A,W1,,5,\nc1,count,2026-01-04T09:00:00,B,W1,,2,\n",
        &[SOLD, TWO_COUNTED],
    ),
    (
        b"v1,sold,2026-01-03T09:00:00,A,W1,,3,\r\nc1,count,2026-01-04T09:00:00,A,W1,,5,\r\nc1,count,2026-01-04T09:00:00,B,W1,,2,\r\n",
        &[SOLD, TWO_COUNTED],
    ),
    (
        b"v1,sold,2026-01-03T09:00:00,A,W1,,3,\rc1,count,2026-01-04T09:00:00,A,W1,,5,\n\n\nc1,count,2026-01-04T09:00:00,B,W1,,2,",
        &[SOLD, TWO_COUNTED],
    ),
    (
        b"\"v\n1\",\"sold\",2026-01-03T09:00:00,\"A\",W1,\"\",\"3\",",
        &[SOLD],
    ),
    (b"v1,\"so\"ld,2026-01-03T09:00:00,A,W1,,3,\"", &[SOLD]),
    (
        b"v1,sold,2026-01-03T09:00:00,A,W1,,3,\nv2,sold,2026-01-03T09:00:00,A,W1,,3,\nv1,sold,2026-01-03T09:00:00,A,W1,,3,\n",
        &[SOLD, SOLD, SOLD],
    ),
    (
        b",receipt,0001-01-01T00:00:00,a b,\xc3\xbc,,0000000000001,1000000000000\n,receipt,0001-01-01T00:00:00,,,,1000000000,0\n",
        &[(
            "receipt",
            10_101,
            0,
            &[
                ("a b", "\u{fc}", "", 1, 1_000_000_000_000),
                ("", "", "", 1_000_000_000, 0),
            ],
        )],
    ),
    (
        b"v1,used,2026-01-03T09:00:00,A,W1,,3,\nv1,used,2026-01-03T09:00:00,A,W1,,3,\n",
        &[("used", 20_260_103, 32_400, &[A3, A3])],
    ),
    (
        b"v1,transfer,2026-01-03T09:00:00,A,W1,W2,3,\nv2,transfer,2026-01-03T09:00:00,A,W1,,3,\n",
        &[
            ("transfer", 20_260_103, 32_400, &[("A", "W1", "W2", 3, 0)]),
            ("transfer", 20_260_103, 32_400, &[("A", "W1", "", 3, 0)]),
        ],
    ),
    (
        b"c1,count,9999-12-31T23:59:59,A,W1,,0,\nc1,count,9999-12-31T23:59:59,A,W2,,1000000000,\n",
        &[(
            "count",
            99_991_231,
            86_399,
            &[("A", "W1", "", 0, 0), ("A", "W2", "", 1_000_000_000, 0)],
        )],
    ),
];

#[test]
fn reads_vouchers_and_counts(rt: HostRuntime) {
    for (rows, told) in VOUCHERS {
        assert!(rt; are_vouchers(read_under_head(rt.alloc(), rows), told));
    }
}

#[test]
fn leaves_out_a_byte_order_mark(rt: HostRuntime) {
    let text =
        b"\xef\xbb\xbfvoucher,do,at,item,store,to,qty,amount\nv1,sold,2026-01-03T09:00:00,A,W1,,3,\n";
    assert!(rt; are_vouchers(read(rt.alloc(), text), &[SOLD]));
}

const HEADS: &[&[u8]] = &[
    b"",
    b"\n\n",
    b"voucher,do,at,item,store,to,qty",
    b"voucher,do,at,item,store,to,qty,amount,",
    b"voucher,do,at,item,store,to,amount,qty\n",
    b"Voucher,do,at,item,store,to,qty,amount\n",
    b" voucher,do,at,item,store,to,qty,amount\n",
    b"\xef\xbb\xbf\xef\xbb\xbfvoucher,do,at,item,store,to,qty,amount\n",
    b"v1,sold,2026-01-03T09:00:00,A,W1,,3,\n",
];

#[test]
fn refuses_other_heads(rt: HostRuntime) {
    for text in HEADS {
        assert!(rt; read(rt.alloc(), text).err() == Some(SheetFault::BadHead));
    }
}

const FAULTS: &[(&[u8], u32, SheetField)] = &[
    (
        b"v1,sold,2026-01-03T09:00:00,A,W1,,3\n",
        2,
        SheetField::Length,
    ),
    (
        b"v1,sold,2026-01-03T09:00:00,A,W1,,3,,\n",
        2,
        SheetField::Length,
    ),
    (b" ", 2, SheetField::Length),
    (
        b"v1,sold,2026-01-03T09:00:00,A,W1,,3,\n\nv1,used,2026-01-03T09:00:00,A,W1,,3,\n",
        3,
        SheetField::Group,
    ),
    (
        b"v1,sold,2026-01-03T09:00:00,A,W1,,3,\nv1,sold,2026-01-03T09:00:01,A,W1,,3,\n",
        3,
        SheetField::Group,
    ),
    (
        b"v1,sold,2026-01-03T09:00:00,A,W1,,3,\nv1,fly,2026,A,W1,x,y,z\n",
        3,
        SheetField::Group,
    ),
    (
        b"v1,sold,2026-01-03T09:00:00,A,W1,,3,\nv1,used,2026-01-03T09:00:00,A,W1,,3\n",
        3,
        SheetField::Length,
    ),
    (b"v1,issue,2026,A,W1,,3,\n", 2, SheetField::Do),
    (b"v1,Sold,2026-01-03T09:00:00,A,W1,,3,\n", 2, SheetField::Do),
    (
        b"v1,sold,2026-01-03 09:00:00,\xff,W1,,3,\n",
        2,
        SheetField::At,
    ),
    (b"v1,sold,2026-02-29T09:00:00,A,W1,,3,\n", 2, SheetField::At),
    (b"v1,sold,0000-01-03T09:00:00,A,W1,,3,\n", 2, SheetField::At),
    (
        b"v1,sold,2026-01-03T09:00:00,\xff,\xff,,3,\n",
        2,
        SheetField::Item,
    ),
    (
        b"v1,sold,2026-01-03T09:00:00,A,W\xed\xa0\x80,x,3,\n",
        2,
        SheetField::Store,
    ),
    (
        b"v1,sold,2026-01-03T09:00:00,A,W1,W2,,\n",
        2,
        SheetField::To,
    ),
    (
        b"v1,transfer,2026-01-03T09:00:00,A,W1,\xff,,\n",
        2,
        SheetField::To,
    ),
    (
        b"v1,sold,2026-01-03T09:00:00,A,W1,,x,7\n",
        2,
        SheetField::Qty,
    ),
    (
        b"v1,sold,2026-01-03T09:00:00,A,W1,,,7\n",
        2,
        SheetField::Qty,
    ),
    (
        b"v1,sold,2026-01-03T09:00:00,A,W1,,0,\n",
        2,
        SheetField::Qty,
    ),
    (
        b"v1,sold,2026-01-03T09:00:00,A,W1,,+3,\n",
        2,
        SheetField::Qty,
    ),
    (
        b"v1,sold,2026-01-03T09:00:00,A,W1,,1000000001,\n",
        2,
        SheetField::Qty,
    ),
    (
        b"v1,sold,2026-01-03T09:00:00,A,W1,,00000000000003,\n",
        2,
        SheetField::Qty,
    ),
    (
        b"v1,sold,2026-01-03T09:00:00,A,W1,,18446744073709551617,\n",
        2,
        SheetField::Qty,
    ),
    (
        b"v1,sold,2026-01-03T09:00:00,A,W1,,3,7\n",
        2,
        SheetField::Amount,
    ),
    (
        b"v1,receipt,2026-01-03T09:00:00,A,W1,,3,\n",
        2,
        SheetField::Amount,
    ),
    (
        b"v1,receipt,2026-01-03T09:00:00,A,W1,,3,-1\n",
        2,
        SheetField::Amount,
    ),
    (
        b"v1,receipt,2026-01-03T09:00:00,A,W1,,3,1000000000001\n",
        2,
        SheetField::Amount,
    ),
    (
        b"c1,count,2026-01-04T09:00:00,A,W1,,5,\nc1,count,2026-01-04T09:00:00,B,W1,,5,\nc1,count,2026-01-04T09:00:00,A,W1,,5,\n",
        4,
        SheetField::Repeat,
    ),
    (
        b"v1,sold,2026-01-03T09:00:00,A,W1,,3,\nc1,count,2026-01-04T09:00:00,A,W1,,x,\nc1,count,2026-01-04T09:00:00,B,W1,,2,\n",
        3,
        SheetField::Qty,
    ),
    (
        b"v1,sold,2026-01-03T09:00:00,A,W1,,3,\nv2,sold,2026-01-03T09:00:00,A,W1,,x,\nv3,fly\n",
        3,
        SheetField::Qty,
    ),
];

#[test]
fn tells_the_first_fault(rt: HostRuntime) {
    for (rows, row, field) in FAULTS {
        assert!(rt; is_refused(rt.alloc(), rows, *row, *field));
    }
}

/// So many lines of one receipt, and then a line of another.
fn receipt_of(alloc: Global, count: usize) -> Option<Vec<u8>> {
    let mut rows = Vec::new(alloc);
    for _ in 0..count {
        rows.extend_from_slice(b"v1,receipt,2026-01-03T09:00:00,A,W1,,3,7\n")
            .ok()?;
    }
    rows.extend_from_slice(b"v2,receipt,2026-01-03T09:00:00,A,W1,,3,7\n")
        .ok()?;
    Some(rows)
}

#[test]
fn reads_a_hundred_lines_and_no_more(rt: HostRuntime) {
    let Some(rows) = receipt_of(rt.alloc(), 100) else {
        return assert!(rt; false);
    };
    let found = read_under_head(rt.alloc(), rows.as_slice());
    assert!(rt; matches!(&found, Ok(vouchers) if vouchers.len() == 2));
    let Some(rows) = receipt_of(rt.alloc(), 101) else {
        return assert!(rt; false);
    };
    assert!(rt; is_refused(rt.alloc(), rows.as_slice(), 102, SheetField::Many));
}
