//! The lines of each kind of voucher.

ghost use Rattle.std.specs.Prelude.{◌≡◌, IsTrue, IfOk};
ghost use Rattle.stock_nums.specs.Quantities.{IsLineQuantity, is_line_amount};
ghost use Rattle.stock_nums.specs.Targets.{is_target};

use std::alloc::Global;
use stock_nums::cause::{Method, Target};
use stock_nums::code::Code;
use stock_nums::lines::Lines;
use stock_nums::memory::NoMemory;
use stock_nums::moment::Moment;
use stock_nums::numbers::{AccountNo, Minor, Qty, RecordNo};

/// A line of a receipt.
#[derive(Drop)]
pub struct ReceiptLine {
    pub item: Code,
    pub store: Code,
    /// From 1 to 10^9.
    pub qty: Qty,
    /// The purchase price of the whole line, from 0 to 10^12 (IAS 2.11).
    pub amount: Minor,
    pub ghost quantity: { IsLineQuantity qty.0 },
    pub ghost price: { IsTrue (is_line_amount amount.0) },
}

/// What goods are issued for.
#[derive(Clone, Copy, Debug, PartialEq, Eq)]
pub enum Purpose {
    /// They were sold.
    Sold,
    /// They were used by the firm itself.
    Used,
}

/// A line of an issue.
#[derive(Drop)]
pub struct IssueLine {
    pub item: Code,
    pub store: Code,
    /// From 1 to 10^9.
    pub qty: Qty,
    pub ghost quantity: { IsLineQuantity qty.0 },
}

/// A line of a transfer from one warehouse to another.
#[derive(Drop)]
pub struct TransferLine {
    pub item: Code,
    pub from: Code,
    pub to: Code,
    /// From 1 to 10^9.
    pub qty: Qty,
    pub ghost quantity: { IsLineQuantity qty.0 },
}

/// A line of a return: units of a line of an earlier voucher.
#[derive(Drop)]
pub struct ReturnLine {
    /// The line of an issue whose units come back, or of a receipt whose units go back. Its record is at least 1,
    /// and its line from 1 to 100.
    pub target: Target,
    /// The warehouse that the units come into, or leave.
    pub store: Code,
    /// From 1 to 10^9.
    pub qty: Qty,
    pub ghost named: { IsTrue (is_target target) },
    pub ghost quantity: { IsLineQuantity qty.0 },
}

/// By which of their numbers a charge is parted over lines of receipts.
#[derive(Clone, Copy, Debug, PartialEq, Eq)]
pub enum Basis {
    /// By the received quantities.
    Quantity,
    /// By the lines' amounts.
    Amount,
}

/// What a record says.
#[derive(Drop)]
pub enum What {
    /// A new item, with its cost formula (IAS 2.25).
    Item {
        code: Code,
        method: Method,
    },
    /// A new warehouse, with its ledger account.
    Store {
        code: Code,
        account: AccountNo,
    },
    /// Goods that came in at the moment.
    Receipt {
        at: Moment,
        lines: Lines<ReceiptLine>,
    },
    /// Goods that left at the moment.
    Issue {
        at: Moment,
        purpose: Purpose,
        lines: Lines<IssueLine>,
    },
    /// Goods that went from one warehouse to another at the moment.
    Transfer {
        at: Moment,
        lines: Lines<TransferLine>,
    },
    /// Goods that customers gave back at the moment.
    CustomerReturn {
        at: Moment,
        lines: Lines<ReturnLine>,
    },
    /// Goods that went back to suppliers at the moment.
    SupplierReturn {
        at: Moment,
        lines: Lines<ReturnLine>,
    },
    /// A charge for transport, duties or handling of goods that were received (IAS 2.10 and 11), from 0 to 10^12
    /// minor units, which is parted over lines of receipts. It moves no goods.
    Landed {
        charge: Minor,
        basis: Basis,
        targets: Lines<Target>,
    },
    /// The past is closed up to this moment, which is closed too: no later record moves goods at a moment that is
    /// closed, or changes what goods cost that were received at one. A freeze is never taken back. It moves no goods.
    Freeze {
        until: Moment,
    },
    /// The voucher with this number, at least 1, is taken back: its movements and what it charges count no more, at no moment.
    Cancel {
        target: RecordNo,
    },
}

/// A line of which an equal one can be made.
pub trait CopyLine: Drop {
    /// An equal line.
    fn copy(&self, alloc: Global) -> Result<Self, NoMemory>
        ensures { IfOk result (λ copy. copy ≡ self.now) };
}

impl CopyLine for ReceiptLine {
    fn copy(&self, alloc: Global) -> Result<ReceiptLine, NoMemory> {
        Ok(ReceiptLine {
            item: self.item.copy(alloc)?,
            store: self.store.copy(alloc)?,
            qty: self.qty,
            amount: self.amount,
        })
    }
}

impl CopyLine for IssueLine {
    fn copy(&self, alloc: Global) -> Result<IssueLine, NoMemory> {
        Ok(IssueLine {
            item: self.item.copy(alloc)?,
            store: self.store.copy(alloc)?,
            qty: self.qty,
        })
    }
}

impl CopyLine for TransferLine {
    fn copy(&self, alloc: Global) -> Result<TransferLine, NoMemory> {
        Ok(TransferLine {
            item: self.item.copy(alloc)?,
            from: self.from.copy(alloc)?,
            to: self.to.copy(alloc)?,
            qty: self.qty,
        })
    }
}

impl CopyLine for ReturnLine {
    fn copy(&self, alloc: Global) -> Result<ReturnLine, NoMemory> {
        Ok(ReturnLine {
            target: self.target,
            store: self.store.copy(alloc)?,
            qty: self.qty,
        })
    }
}

impl CopyLine for Target {
    fn copy(&self, _alloc: Global) -> Result<Target, NoMemory> {
        Ok(*self)
    }
}

impl What {
    /// An equal value.
    pub fn copy(&self, alloc: Global) -> Result<What, NoMemory>
        ensures { IfOk result (λ copy. copy ≡ self.now) }
    {
        match self {
            What::Item { code, method } => Ok(What::Item {
                code: code.copy(alloc)?,
                method: *method,
            }),
            What::Store { code, account } => Ok(What::Store {
                code: code.copy(alloc)?,
                account: *account,
            }),
            What::Receipt { at, lines } => Ok(What::Receipt {
                at: *at,
                lines: copy_lines(alloc, lines.as_slice())?,
            }),
            What::Issue { at, purpose, lines } => Ok(What::Issue {
                at: *at,
                purpose: *purpose,
                lines: copy_lines(alloc, lines.as_slice())?,
            }),
            What::Transfer { at, lines } => Ok(What::Transfer {
                at: *at,
                lines: copy_lines(alloc, lines.as_slice())?,
            }),
            What::CustomerReturn { at, lines } => Ok(What::CustomerReturn {
                at: *at,
                lines: copy_lines(alloc, lines.as_slice())?,
            }),
            What::SupplierReturn { at, lines } => Ok(What::SupplierReturn {
                at: *at,
                lines: copy_lines(alloc, lines.as_slice())?,
            }),
            What::Landed {
                charge,
                basis,
                targets,
            } => Ok(What::Landed {
                charge: *charge,
                basis: *basis,
                targets: copy_lines(alloc, targets.as_slice())?,
            }),
            What::Freeze { until } => Ok(What::Freeze { until: *until }),
            What::Cancel { target } => Ok(What::Cancel { target: *target }),
        }
    }
}

// Equal lines.
fn copy_lines<T: CopyLine>(alloc: Global, lines: &[T]) -> Result<Lines<T>, NoMemory>
    ensures { IfOk result (λ copy. copy ≡ lines.now) }
{
    let mut copy = Lines::new(alloc);
    for line in lines {
        copy.push(line.copy(alloc)?)?;
    }
    Ok(copy)
}
