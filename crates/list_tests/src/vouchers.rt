//! A small journal with vouchers of all kinds is read, and its items and warehouses are found.
ghost use Rattle.std.specs.Prelude.{◌≡◌, [], ◌∷◌, IfOk};

use std::alloc::Global;
use std::test::Fail;
use stock_model::masters::{code_of, heads_after, item_with, store_with};
use stock_model::movements::count;
use stock_model::posting::posting_line;
use stock_model::records::Record;
use stock_model::vouchers::{
    Basis, IssueLine, Purpose, ReceiptLine, ReturnLine, TransferLine, What,
};
use stock_nums::cause::{Method, Target};
use stock_nums::code::Code;
use stock_nums::entry::Entry;
use stock_nums::lines::Lines;
use stock_nums::memory::NoMemory;
use stock_nums::moment::Moment;
use stock_nums::numbers::{AccountNo, DeskNo, ItemNo, Minor, Qty, RecordNo, StoreNo};
use stock_nums::place::Side;

const NINE: Moment = Moment {
    date: 20_260_102,
    second: 32_400,
};

// The line of the receipt, and that of the sale.
const BOUGHT: Target = Target {
    voucher: RecordNo(4),
    line: 1,
};

const SALE: Target = Target {
    voucher: RecordNo(6),
    line: 1,
};

// A list of one.
fn one<T: Drop>(alloc: Global, item: T) -> Result<Lines<T>, NoMemory>
    ensures { IfOk result (λ lines. lines ≡ item ∷ []) }
{
    let mut lines = Lines::new(alloc);
    lines.push(item)?;
    Ok(lines)
}

fn item(alloc: Global) -> Result<Record, NoMemory> {
    let code = Code::of(alloc, "A")?;
    Ok(Record {
        desk: DeskNo(0),
        what: What::Item {
            code,
            method: Method::Average,
        },
    })
}

fn store(alloc: Global, code: &str) -> Result<Record, NoMemory> {
    let code = Code::of(alloc, code)?;
    Ok(Record {
        desk: DeskNo(0),
        what: What::Store {
            code,
            account: AccountNo(100),
        },
    })
}

fn receipt_line(alloc: Global) -> Result<ReceiptLine, NoMemory> {
    Ok(ReceiptLine {
        item: Code::of(alloc, "A")?,
        store: Code::of(alloc, "W1")?,
        qty: Qty(4),
        amount: Minor(100),
    })
}

fn receipt(alloc: Global) -> Result<Record, NoMemory> {
    let lines = one(alloc, receipt_line(alloc)?)?;
    Ok(Record {
        desk: DeskNo(0),
        what: What::Receipt { at: NINE, lines },
    })
}

fn transfer_line(alloc: Global) -> Result<TransferLine, NoMemory> {
    Ok(TransferLine {
        item: Code::of(alloc, "A")?,
        from: Code::of(alloc, "W1")?,
        to: Code::of(alloc, "W2")?,
        qty: Qty(3),
    })
}

fn transfer(alloc: Global) -> Result<Record, NoMemory> {
    let lines = one(alloc, transfer_line(alloc)?)?;
    Ok(Record {
        desk: DeskNo(0),
        what: What::Transfer { at: NINE, lines },
    })
}

fn issue_line(alloc: Global) -> Result<IssueLine, NoMemory> {
    Ok(IssueLine {
        item: Code::of(alloc, "A")?,
        store: Code::of(alloc, "W2")?,
        qty: Qty(2),
    })
}

fn sale(alloc: Global) -> Result<Record, NoMemory> {
    let lines = one(alloc, issue_line(alloc)?)?;
    Ok(Record {
        desk: DeskNo(0),
        what: What::Issue {
            at: NINE,
            purpose: Purpose::Sold,
            lines,
        },
    })
}

fn sold_line(alloc: Global) -> Result<ReturnLine, NoMemory> {
    Ok(ReturnLine {
        target: SALE,
        store: Code::of(alloc, "W1")?,
        qty: Qty(1),
    })
}

fn customer_return(alloc: Global) -> Result<Record, NoMemory> {
    let lines = one(alloc, sold_line(alloc)?)?;
    Ok(Record {
        desk: DeskNo(0),
        what: What::CustomerReturn { at: NINE, lines },
    })
}

fn bought_line(alloc: Global) -> Result<ReturnLine, NoMemory> {
    Ok(ReturnLine {
        target: BOUGHT,
        store: Code::of(alloc, "W1")?,
        qty: Qty(1),
    })
}

fn supplier_return(alloc: Global) -> Result<Record, NoMemory> {
    let lines = one(alloc, bought_line(alloc)?)?;
    Ok(Record {
        desk: DeskNo(0),
        what: What::SupplierReturn { at: NINE, lines },
    })
}

fn landed(alloc: Global) -> Result<Record, NoMemory> {
    let targets = one(alloc, BOUGHT)?;
    Ok(Record {
        desk: DeskNo(0),
        what: What::Landed {
            charge: Minor(20),
            basis: Basis::Quantity,
            targets,
        },
    })
}

// The record with a number from 1 to 9.
fn record(alloc: Global, number: u32) -> Result<Record, NoMemory> {
    match number {
        1 => item(alloc),
        2 => store(alloc, "W1"),
        3 => store(alloc, "W2"),
        4 => receipt(alloc),
        5 => transfer(alloc),
        6 => sale(alloc),
        7 => customer_return(alloc),
        8 => supplier_return(alloc),
        _ => landed(alloc),
    }
}

fn journal(alloc: Global) -> Result<Lines<Record>, NoMemory> {
    let mut journal = Lines::new(alloc);
    for number in 1..=9 {
        journal.push(record(alloc, number)?)?;
    }
    Ok(journal)
}

// The record, the side and the warehouse of a movement.
fn seen(entry: &Entry) -> (u32, Side, u32) {
    (entry.place.voucher.0, entry.place.side, entry.store.0)
}

#[test]
fn of_all_kinds_are_read(rt: HostRuntime) -> Result<(), Fail> {
    let journal = journal(rt.alloc())?;
    assert_eq!(rt; journal.len(), 9);
    let line = posting_line(rt.alloc(), journal.as_slice())?;
    let want = [
        (4, Side::Enters, 2),
        (5, Side::Leaves, 2),
        (5, Side::Enters, 3),
        (6, Side::Leaves, 3),
        (7, Side::Enters, 2),
        (8, Side::Leaves, 2),
    ];
    assert_eq!(rt; line.len(), want.len());
    for (entry, want) in line.as_slice().iter().zip(want) {
        assert_eq!(rt; seen(entry), want);
    }
    Ok(())
}

#[test]
fn make_as_many_movements_when_copied(rt: HostRuntime) -> Result<(), Fail> {
    let journal = journal(rt.alloc())?;
    let counts = [0, 0, 0, 1, 2, 1, 1, 1, 0];
    assert_eq!(rt; journal.len(), counts.len());
    for (record, want) in journal.as_slice().iter().zip(counts) {
        assert_eq!(rt; count(&record.copy(rt.alloc())?), want);
    }
    Ok(())
}

#[test]
fn make_items_and_warehouses(rt: HostRuntime) -> Result<(), Fail> {
    let alloc = rt.alloc();
    let journal = journal(alloc)?;
    let records = journal.as_slice();
    assert_eq!(rt; records.len(), 9);
    let heads = heads_after(alloc, records, 0)?;
    assert_eq!(rt; heads.len(), 3);
    assert_eq!(rt; heads_after(alloc, records, 1)?.len(), 2);
    assert_eq!(rt; code_of(alloc, heads.as_slice(), 3)?.text(), "W2");
    Ok(())
}

#[test]
fn are_searched_for_items_and_warehouses(rt: HostRuntime) -> Result<(), Fail> {
    let alloc = rt.alloc();
    let journal = journal(alloc)?;
    let records = journal.as_slice();
    assert_eq!(rt; records.len(), 9);
    let (item, second) = (Code::of(alloc, "A")?, Code::of(alloc, "W2")?);
    assert_eq!(rt;
        item_with(records, &item),
        Some((ItemNo(1), Method::Average))
    );
    assert_eq!(rt;
        store_with(records, &second),
        Some((StoreNo(3), AccountNo(100)))
    );
    Ok(())
}
