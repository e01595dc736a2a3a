//! Items and warehouses are added, found, refused and taken away.

use item_master::faults::MasterFault;
use item_master::master::Master;
use std::alloc::Global;
use std::test::Fail;
use stock_nums::cause::Method;
use stock_nums::code::Code;
use stock_nums::memory::NoMemory;
use stock_nums::numbers::{AccountNo, ItemNo, RecordNo, StoreNo};

// Adds the item tea. The outer error is want of memory for its code.
fn add_item(
    alloc: Global,
    master: &mut Master,
    number: u32,
    method: Method,
) -> Result<Result<(), MasterFault>, NoMemory> {
    let tea = Code::of(alloc, "TEA")?;
    Ok(master.add_item(RecordNo(number), &tea, method))
}

// Adds a warehouse.
fn add_store(
    alloc: Global,
    master: &mut Master,
    number: u32,
    code: &str,
    account: u32,
) -> Result<Result<(), MasterFault>, NoMemory> {
    let code = Code::of(alloc, code)?;
    Ok(master.add_store(RecordNo(number), &code, AccountNo(account)))
}

// The item tea, as record 1, and the warehouses MAIN and TEA, as records 2 and 3.
fn tea_in_two_warehouses(alloc: Global) -> Result<Master, Fail> {
    let mut master = Master::new(alloc);
    add_item(alloc, &mut master, 1, Method::Average)??;
    add_store(alloc, &mut master, 2, "MAIN", 100)??;
    add_store(alloc, &mut master, 3, "TEA", 9999)??;
    Ok(master)
}

// The item and the warehouse that have a code.
#[derive(Debug, PartialEq, Drop)]
struct Found {
    item: Option<(ItemNo, Method)>,
    store: Option<(StoreNo, AccountNo)>,
}

fn look_up(alloc: Global, master: &Master, code: &str) -> Result<Found, NoMemory> {
    let code = Code::of(alloc, code)?;
    Ok(Found {
        item: master.item(&code),
        store: master.store(&code),
    })
}

const TEA: Found = Found {
    item: Some((ItemNo(1), Method::Average)),
    store: Some((StoreNo(3), AccountNo(9999))),
};

const MAIN: Found = Found {
    item: None,
    store: Some((StoreNo(2), AccountNo(100))),
};

const NOTHING: Found = Found {
    item: None,
    store: None,
};

#[test]
fn are_found_where_others_were_refused(rt: HostRuntime) -> Result<(), Fail> {
    let alloc = rt.alloc();
    let mut master = tea_in_two_warehouses(alloc)?;
    let table = [
        ("TEA", 99, MasterFault::CodeTaken),
        ("a b", 99, MasterFault::CodeShape),
        ("X", 99, MasterFault::AccountRange),
        ("X", 10_000, MasterFault::AccountRange),
    ];
    for (code, account, fault) in table {
        let refused = add_store(alloc, &mut master, 4, code, account)?;
        assert!(rt; refused == Err(fault), "at {code} {account}");
    }
    let taken = add_item(alloc, &mut master, 4, Method::Fifo)?;
    assert!(rt; taken == Err(MasterFault::CodeTaken));
    assert_eq!(rt; look_up(alloc, &master, "TEA")?, TEA);
    assert_eq!(rt; look_up(alloc, &master, "MAIN")?, MAIN);
    Ok(())
}

#[test]
fn are_taken_away(rt: HostRuntime) -> Result<(), Fail> {
    let alloc = rt.alloc();
    let mut master = tea_in_two_warehouses(alloc)?;
    master.pop_store();
    master.pop_item();
    assert_eq!(rt; look_up(alloc, &master, "TEA")?, NOTHING);
    assert_eq!(rt; look_up(alloc, &master, "MAIN")?, MAIN);
    Ok(())
}
