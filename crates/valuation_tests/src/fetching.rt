//! What is fetched of a small journal after some of its records.
ghost use Rattle.std.specs.Prelude.{◌≡◌, [], ◌∷◌, IfOk};

use repost_fetch::fetch::{Fetched, fetch};
use std::alloc::Global;
use std::test::Fail;
use stock_model::faults::PostFault;
use stock_model::records::Record;
use stock_model::vouchers::{Basis, IssueLine, Purpose, ReceiptLine, What};
use stock_nums::cause::{Method, Target};
use stock_nums::code::Code;
use stock_nums::limits::MAX_RECORDS;
use stock_nums::lines::Lines;
use stock_nums::memory::NoMemory;
use stock_nums::moment::Moment;
use stock_nums::numbers::{AccountNo, DeskNo, Minor, Qty, RecordNo};
use voucher_kinds::journal::Journal;

const NINE: Moment = Moment {
    date: 20_260_102,
    second: 32_400,
};

// A list of one.
fn one<T: Drop>(alloc: Global, item: T) -> Result<Lines<T>, NoMemory>
    ensures { IfOk result (λ lines. lines ≡ item ∷ []) }
{
    let mut lines = Lines::new(alloc);
    lines.push(item)?;
    Ok(lines)
}

// A list of two.
fn two<T: Drop>(alloc: Global, first: T, second: T) -> Result<Lines<T>, NoMemory>
    ensures { IfOk result (λ lines. lines ≡ first ∷ second ∷ []) }
{
    let mut lines = Lines::new(alloc);
    lines.push(first)?;
    lines.push(second)?;
    Ok(lines)
}

fn item(alloc: Global) -> Result<Record, NoMemory> {
    let code = Code::of(alloc, "B")?;
    Ok(Record {
        desk: DeskNo(0),
        what: What::Item {
            code,
            method: Method::Average,
        },
    })
}

fn store(alloc: Global) -> Result<Record, NoMemory> {
    let code = Code::of(alloc, "W1")?;
    Ok(Record {
        desk: DeskNo(0),
        what: What::Store {
            code,
            account: AccountNo(100),
        },
    })
}

fn ten_bought(alloc: Global) -> Result<ReceiptLine, NoMemory> {
    Ok(ReceiptLine {
        item: Code::of(alloc, "B")?,
        store: Code::of(alloc, "W1")?,
        qty: Qty(10),
        amount: Minor(1000),
    })
}

fn thirty_bought(alloc: Global) -> Result<ReceiptLine, NoMemory> {
    Ok(ReceiptLine {
        item: Code::of(alloc, "B")?,
        store: Code::of(alloc, "W1")?,
        qty: Qty(30),
        amount: Minor(1500),
    })
}

// Ten units and thirty more of an item that come into a warehouse.
fn receipt(alloc: Global) -> Result<Record, NoMemory> {
    let lines = two(alloc, ten_bought(alloc)?, thirty_bought(alloc)?)?;
    Ok(Record {
        desk: DeskNo(0),
        what: What::Receipt { at: NINE, lines },
    })
}

fn five_sold(alloc: Global) -> Result<IssueLine, NoMemory> {
    Ok(IssueLine {
        item: Code::of(alloc, "B")?,
        store: Code::of(alloc, "W1")?,
        qty: Qty(5),
    })
}

// Five of them leave at the same moment.
fn issue(alloc: Global) -> Result<Record, NoMemory> {
    let lines = one(alloc, five_sold(alloc)?)?;
    Ok(Record {
        desk: DeskNo(0),
        what: What::Issue {
            at: NINE,
            purpose: Purpose::Sold,
            lines,
        },
    })
}

// The lines of the receipt.
const TEN: Target = Target {
    voucher: RecordNo(3),
    line: 1,
};

const THIRTY: Target = Target {
    voucher: RecordNo(3),
    line: 2,
};

// A charge of eight minor units for both of its lines.
fn landed(alloc: Global) -> Result<Record, NoMemory> {
    let targets = two(alloc, TEN, THIRTY)?;
    Ok(Record {
        desk: DeskNo(0),
        what: What::Landed {
            charge: Minor(8),
            basis: Basis::Quantity,
            targets,
        },
    })
}

// The record with a number from 1 to 5.
fn record(alloc: Global, number: u32) -> Result<Record, NoMemory> {
    match number {
        1 => item(alloc),
        2 => store(alloc),
        3 => receipt(alloc),
        4 => landed(alloc),
        _ => issue(alloc),
    }
}

fn accept(alloc: Global, journal: &mut Journal, item: Record) -> Result<(), PostFault> {
    journal.check(alloc, &item)?;
    if journal.count() as usize >= MAX_RECORDS {
        return Err(PostFault::NoMemory);
    }
    match journal.push(item) {
        Ok(_) => Ok(()),
        Err(NoMemory) => Err(PostFault::NoMemory),
    }
}

// An item, a warehouse, a receipt, a landed charge and an issue.
fn journal_of_five(alloc: Global) -> Result<Journal, Fail> {
    let mut journal = Journal::new(alloc);
    for number in 1..=5 {
        accept(alloc, &mut journal, record(alloc, number)?)?;
    }
    Ok(journal)
}

fn fetched(alloc: Global, journal: &Journal, after: u32) -> Option<Fetched> {
    if after > journal.count() {
        return None;
    }
    fetch(alloc, journal, RecordNo(after)).ok()
}

// The lines of which records the movements are of, and how many units each moves.
fn moved(alloc: Global, fetched: &Fetched) -> Result<Vec<(u32, u32, u64)>, NoMemory> {
    let mut moved = Vec::new(alloc);
    for entry in fetched.entries.as_slice() {
        moved.push((entry.place.voucher.0, entry.place.line, entry.qty.0))?;
    }
    Ok(moved)
}

// The lines of which records are charged, and with how much.
fn charged(alloc: Global, fetched: &Fetched) -> Result<Vec<(u32, u32, i64)>, NoMemory> {
    let mut charged = Vec::new(alloc);
    for charge in fetched.charges.as_slice() {
        charged.push((charge.line.voucher.0, charge.line.line, charge.amount.0))?;
    }
    Ok(charged)
}

// How many records there were before, and what the others move and charge.
const FETCHED: [(u32, &[(u32, u32, u64)], &[(u32, u32, i64)]); 3] = [
    (
        2,
        &[(3, 1, 10), (3, 2, 30), (5, 1, 5)],
        &[(3, 1, 2), (3, 2, 6)],
    ),
    (4, &[(5, 1, 5)], &[]),
    (5, &[], &[]),
];

#[test]
fn fetches_what_comes_after(rt: HostRuntime) -> Result<(), Fail> {
    let alloc = rt.alloc();
    let journal = journal_of_five(alloc)?;
    for (after, entries, charges) in FETCHED {
        let fetched = fetched(alloc, &journal, after).ok_or("memory was wanting")?;
        assert_eq!(rt;
            (fetched.after, fetched.upto),
            (RecordNo(after), RecordNo(5))
        );
        assert_eq!(rt;
            moved(alloc, &fetched)?.as_slice(),
            entries,
            "after {after}"
        );
        assert_eq!(rt;
            charged(alloc, &fetched)?.as_slice(),
            charges,
            "after {after}"
        );
    }
    Ok(())
}
