//! Lists grow and are held by several, numbers are added up by line, and want of memory is shown.

use shared_list::blocks::SharedBlocks;
use shared_list::list::SharedList;
use std::alloc::Global;
use std::test::Fail;
use stock_nums::cause::Target;
use stock_nums::line_sums::LineSums;
use stock_nums::lines::Lines;
use stock_nums::memory::NoMemory;
use stock_nums::numbers::RecordNo;

#[test]
fn want_of_memory_is_shown(rt: HostRuntime) -> Result<(), Fail> {
    let shown = format!(in rt.alloc(); "{}", NoMemory)?;
    assert_eq!(rt; shown.as_str(), "out of memory");
    Ok(())
}

#[test]
fn grow(rt: HostRuntime) -> Result<(), Fail> {
    let mut lines = Lines::new(rt.alloc());
    assert!(rt; lines.is_empty());
    lines.push(3u32)?;
    lines.push(5)?;
    lines.insert(1, 4)?;
    assert_eq!(rt; lines.as_slice(), [3, 4, 5].as_slice());
    assert_eq!(rt; lines.len(), 3);
    Ok(())
}

// A line of record 6.
fn line(line: u32) -> Target {
    Target {
        voucher: RecordNo(6),
        line,
    }
}

#[test]
fn add_numbers_up_by_line(rt: HostRuntime) -> Result<(), Fail> {
    let (first, second) = (line(1), line(2));
    let mut sums = LineSums::new(rt.alloc());
    sums.reserve(first)?;
    sums.add(first, 3);
    sums.reserve(first)?;
    sums.add(first, 2);
    assert_eq!(rt; sums.of(first), 5);
    if sums.of(first) == 5 {
        sums.subtract(first, 4);
    }
    assert_eq!(rt; (sums.of(first), sums.of(second)), (1, 0));
    Ok(())
}

// The numbers from 3 to 5, in order.
fn three_to_five(alloc: Global) -> Result<SharedList<u32>, NoMemory> {
    let mut items = Lines::new(alloc);
    for item in 3..6 {
        items.push(item)?;
    }
    SharedList::of(alloc, items)
}

// The first items once more, or all where there are fewer.
fn first(list: &SharedList<u32>, len: usize) -> Result<SharedList<u32>, NoMemory> {
    list.front(len.min(list.len()))
}

#[test]
fn are_held_by_several(rt: HostRuntime) -> Result<(), Fail> {
    let all = three_to_five(rt.alloc())?;
    let two = first(&all, 2)?;
    assert_eq!(rt; (all.len(), two.len()), (3, 2));
    assert_eq!(rt; all.as_slice(), [3, 4, 5].as_slice());
    drop(all);
    let one = first(&two, 1)?;
    drop(two);
    assert_eq!(rt; one.as_slice(), [3].as_slice());
    Ok(())
}

// Two blocks, the numbers from 3 to 5 in each.
fn three_to_five_twice(alloc: Global) -> Result<SharedBlocks<u32>, NoMemory> {
    let block = three_to_five(alloc)?;
    let mut blocks = Lines::new(alloc);
    blocks.push(block.share()?)?;
    blocks.push(block)?;
    SharedBlocks::of(alloc, blocks)
}

// The items, one after another as digits.
fn digits(list: &SharedBlocks<u32>) -> u32 {
    let mut number: u32 = 0;
    for item in list.items() {
        number = number.wrapping_mul(10).wrapping_add(*item);
    }
    number
}

// The first four items as digits, or none where there are fewer.
fn first_four(list: &SharedBlocks<u32>) -> Result<u32, NoMemory> {
    let mut items = list.items();
    match (items.next(), items.next(), items.next(), items.next()) {
        (Some(_), Some(_), Some(_), Some(_)) => Ok(digits(&list.front(4)?)),
        _ => Ok(0),
    }
}

#[test]
fn are_walked_over_in_blocks(rt: HostRuntime) -> Result<(), Fail> {
    let all = three_to_five_twice(rt.alloc())?;
    let same = all.share()?;
    assert_eq!(rt; (digits(&all), first_four(&same)?), (345_345, 3_453));
    drop(all);
    assert_eq!(rt; same.blocks().len(), 2);
    let none: SharedBlocks<u32> = SharedBlocks::new();
    assert_eq!(rt; (digits(&none), none.blocks().len()), (0, 0));
    Ok(())
}

#[test]
fn are_empty(rt: HostRuntime) -> Result<(), Fail> {
    let none: SharedList<u32> = SharedList::new();
    assert!(rt; none.as_slice().is_empty());
    assert_eq!(rt; first(&none, 1)?.len(), 0);
    Ok(())
}
