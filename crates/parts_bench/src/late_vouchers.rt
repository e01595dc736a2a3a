//! Vouchers of one item in one warehouse, in turn receipts and issues of 100 lines.
ghost use Rattle.std.specs.Prelude.{◌≡◌, ◌<◌, ◌≤◌, length, IfOk, IsTrue};
ghost use Rattle.stock_nums.specs.Quantities.{IsLineQuantity, is_line_amount};

use crate::numbers::Numbers;
use std::alloc::Global;
use stock_model::records::Record;
use stock_model::vouchers::{IssueLine, Purpose, ReceiptLine, What};
use stock_nums::cause::Method;
use stock_nums::code::Code;
use stock_nums::lines::Lines;
use stock_nums::memory::NoMemory;
use stock_nums::moment::Moment;
use stock_nums::numbers::{AccountNo, DeskNo, Minor, Qty};

/// How many lines a voucher has.
pub(crate) const LINES: u32 = 100;

// The most units that come in by a line.
const MOST_UNITS: u32 = 20;

// The most units that go out by a line.
const MOST_LEAVING: u32 = 19;

// The least price of a unit, and how many prices there are from it on.
const LEAST_PRICE: u64 = 500;

const PRICES: u32 = 1_000;

// What comes late.
const LATE_UNITS: u64 = 7;

const LATE_AMOUNT: i64 = 9_001;

// The last second of a day.
const LAST_SECOND: u32 = 86_399;

/// The code of the item whose movements are revalued.
pub(crate) const ITEM: &str = "A";

/// The code of another item.
pub(crate) const OTHER: &str = "B";

// The code of the warehouse.
const STORE: &str = "W1";

/// Vouchers that are made one after another.
#[derive(Drop)]
pub(crate) struct Vouchers {
    numbers: Numbers,
    /// How many vouchers were made.
    made: u32,
    /// How many units they leave.
    held: u64,
}

impl Vouchers {
    /// None was made.
    pub(crate) fn new() -> Vouchers {
        Vouchers {
            numbers: Numbers::new(),
            made: 0,
            held: 0,
        }
    }

    /// The next voucher, with so many lines: a receipt after an issue, and an issue of what is held after a receipt.
    pub(crate) fn next(&mut self, alloc: Global, lines: u32) -> Result<Record, NoMemory>
        requires some { 0 < lines }
        requires few { lines ≤ 100 }
    {
        self.made = self.made.saturating_add(1);
        let at = moment(self.made);
        let what = if self.made % 2 == 1 {
            What::Receipt {
                at,
                lines: self.receipt_lines(alloc, lines)?,
            }
        } else {
            What::Issue {
                at,
                purpose: Purpose::Sold,
                lines: self.issue_lines(alloc, lines)?,
            }
        };
        Ok(Record {
            desk: DeskNo(0),
            what,
        })
    }

    // So many lines of a receipt.
    fn receipt_lines(&mut self, alloc: Global, count: u32) -> Result<Lines<ReceiptLine>, NoMemory>
        ensures { IfOk result (λ lines. length lines ≡ count) }
    {
        let mut lines = Lines::new(alloc);
        for _ in 0..count {
            let units = u64::from(self.numbers.next(MOST_UNITS)) + 1;
            let price = LEAST_PRICE + u64::from(self.numbers.next(PRICES));
            self.held = self.held.saturating_add(units);
            lines.push(receipt_line(alloc, ITEM, units, (units * price) as i64)?)?;
        }
        Ok(lines)
    }

    // So many lines of an issue. Each leaves a unit for each line after it.
    fn issue_lines(&mut self, alloc: Global, count: u32) -> Result<Lines<IssueLine>, NoMemory>
        ensures { IfOk result (λ lines. length lines ≡ count) }
    {
        let mut lines = Lines::new(alloc);
        for index in 0..count {
            let most = self.held.saturating_sub(u64::from(count - 1 - index));
            let units = (u64::from(self.numbers.next(MOST_LEAVING)) + 1)
                .min(most)
                .max(1);
            self.held = self.held.saturating_sub(units);
            lines.push(issue_line(alloc, units)?)?;
        }
        Ok(lines)
    }
}

// A second of the day for each voucher, from the second one on.
fn moment(voucher: u32) -> Moment {
    Moment {
        date: 20_260_105,
        second: voucher.min(LAST_SECOND),
    }
}

/// A receipt of the item that comes before all vouchers.
pub(crate) fn late_receipt(alloc: Global, item: &str) -> Result<Record, NoMemory> {
    let mut lines = Lines::new(alloc);
    lines.push(receipt_line(alloc, item, LATE_UNITS, LATE_AMOUNT)?)?;
    Ok(Record {
        desk: DeskNo(0),
        what: What::Receipt {
            at: moment(0),
            lines,
        },
    })
}

// A line of a receipt.
fn receipt_line(alloc: Global, item: &str, units: u64, amount: i64) -> Result<ReceiptLine, NoMemory>
    requires quantity { IsLineQuantity units }
    requires price { IsTrue (is_line_amount amount) }
{
    Ok(ReceiptLine {
        item: Code::of(alloc, item)?,
        store: Code::of(alloc, STORE)?,
        qty: Qty(units),
        amount: Minor(amount),
    })
}

// A line of an issue.
fn issue_line(alloc: Global, units: u64) -> Result<IssueLine, NoMemory>
    requires { IsLineQuantity units }
{
    Ok(IssueLine {
        item: Code::of(alloc, ITEM)?,
        store: Code::of(alloc, STORE)?,
        qty: Qty(units),
    })
}

/// An item that is costed by the method.
pub(crate) fn item(alloc: Global, code: &str, method: Method) -> Result<Record, NoMemory> {
    Ok(Record {
        desk: DeskNo(0),
        what: What::Item {
            code: Code::of(alloc, code)?,
            method,
        },
    })
}

/// The warehouse.
pub(crate) fn store(alloc: Global) -> Result<Record, NoMemory> {
    Ok(Record {
        desk: DeskNo(0),
        what: What::Store {
            code: Code::of(alloc, STORE)?,
            account: AccountNo(100),
        },
    })
}
