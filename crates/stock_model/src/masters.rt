//! The items and warehouses of a journal, found by going over its records.
ghost use Rattle.std.specs.Prelude.{◌≡◌, ◌^◌, ◌<◌, ◌≤◌, ◌++◌, ℕ, List, [], length, take, IfOk, IsTrue, not, None};
ghost use Rattle.std.specs.Option.{option_copied, option_map_or};
ghost use Rattle.stock_model.specs.declared.records.Record.{Record};
ghost use Rattle.stock_model.specs.Masters.{item_with, store_with, heads, head_made, record_at, record_code, code_of};

use crate::records::Record;
use crate::vouchers::What;
use std::alloc::Global;
use stock_nums::cause::Method;
use stock_nums::code::Code;
use stock_nums::head::Head;
use stock_nums::lines::Lines;
use stock_nums::memory::NoMemory;
use stock_nums::numbers::{AccountNo, ItemNo, RecordNo, StoreNo};

/// The item with this code, and its cost formula. None exactly where no item has the code.
pub fn item_with(records: &[Record], code: &Code) -> Option<(ItemNo, Method)>
    requires { length records.now < 2 ^ 32 }
    ensures { result ≡ item_with records.now code.now }
{
    for (i, record) in records.iter().enumerate() {
        if let What::Item {
            code: found,
            method,
        } = &record.what
        {
            if found == code {
                return Some((ItemNo(i as u32 + 1), *method));
            }
        }
    }
    None
}

/// The warehouse with this code, and its account. None exactly where no warehouse has the code.
pub fn store_with(records: &[Record], code: &Code) -> Option<(StoreNo, AccountNo)>
    requires { length records.now < 2 ^ 32 }
    ensures { result ≡ store_with records.now code.now }
{
    for (i, record) in records.iter().enumerate() {
        if let What::Store {
            code: found,
            account,
        } = &record.what
        {
            if found == code {
                return Some((StoreNo(i as u32 + 1), *account));
            }
        }
    }
    None
}

/// The record with this number, from 1. None exactly where there is no such record.
pub fn record_at(records: &[Record], number: RecordNo) -> Option<&Record>
    ensures { option_copied result ≡ record_at records.now number.0 }
{
    if number.0 == 0 {
        return None;
    }
    records.get(number.0 as usize - 1)
}

/// The items and warehouses that the records after the first `after` ones make, in the order of their numbers. It goes over
/// these records alone.
pub fn heads_after(alloc: Global, records: &[Record], after: usize) -> Result<Lines<Head>, NoMemory>
    requires few { length records.now < 2 ^ 32 }
    requires within { after ≤ length records.now }
    ensures { IfOk result (λ found. heads (take after records.now) ++ found ≡ heads records.now) }
{
    let rest = &records[after..];
    let mut found = Lines::new(alloc);
    for (i, record) in rest.iter().enumerate() {
        // Most records make none, so this is asked before anything else.
        if makes_head(&record.what) {
            if let Some(head) = head_made(alloc, (after + i) as u32 + 1, &record.what)? {
                found.push(head)?;
            }
        }
    }
    Ok(found)
}

fn makes_head(what: &What) -> bool
    ensures { IsTrue (not result) → (n : ℕ) → head_made n what.now ≡ None }
{
    matches!(
        what,
        What::Item { code: _, method: _ }
            | What::Store {
                code: _,
                account: _
            }
    )
}

/// The head of what the record with this number makes, if it makes an item or a warehouse.
pub fn head_made(alloc: Global, number: u32, what: &What) -> Result<Option<Head>, NoMemory>
    ensures { IfOk result (λ found. found ≡ head_made number what.now) }
{
    match what {
        What::Item { code, method: _ } => Ok(Some(Head {
            number: RecordNo(number),
            code: code.copy(alloc)?,
            account: None,
        })),
        What::Store { code, account } => Ok(Some(Head {
            number: RecordNo(number),
            code: code.copy(alloc)?,
            account: Some(*account),
        })),
        _ => Ok(None),
    }
}

/// The code of the item or warehouse with this number, or the empty code.
pub fn code_of(alloc: Global, heads: &[Head], number: u32) -> Result<Code, NoMemory>
    ensures { IfOk result (λ code. code ≡ code_of heads.now number) }
{
    for head in heads {
        if head.number.0 == number {
            return head.code.copy(alloc);
        }
    }
    Code::of(alloc, "")
}

/// The code of the head with a number is that of the item or warehouse which the record with the number makes.
pub fn heads_are_those_of_records()
    ensures { (journal : List Record) (n : ℕ) → code_of (heads journal) n ≡ option_map_or record_code (record_at journal n) [] }
{}

/// The code of the item or warehouse that this record makes, or the empty code.
pub fn record_code(alloc: Global, item: &Record) -> Result<Code, NoMemory>
    ensures { IfOk result (λ code. code ≡ record_code item.now) }
{
    match &item.what {
        What::Item { code, method: _ } => code.copy(alloc),
        What::Store { code, account: _ } => code.copy(alloc),
        _ => Code::of(alloc, ""),
    }
}
