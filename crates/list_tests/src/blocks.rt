//! Lists of some hundreds or thousands of numbers in blocks do what plain ones do.

use block_list::bound::Bound;
use block_list::change::Change;
use block_list::crossing::Crossing;
use block_list::list::BlockList;
use block_list::weigh::Weigh;
use std::alloc::Global;
use std::test::Fail;
use stock_nums::memory::NoMemory;

// Each number counts what it is.
struct Number;

impl Weigh<i32> for Number {
    ghost use Rattle.std.specs.Prelude.{ℤ};

    ghost weight = { λ (n : ℤ). n };

    fn weight(item: &i32) -> i64 {
        i64::from(*item)
    }
}

// The numbers below this one come first.
#[derive(Drop)]
struct Below {
    number: i32,
}

impl Bound<i32> for Below {
    ghost use Rattle.std.specs.Prelude.{int_lt};

    ghost above = { λ below item. int_lt item below.number };

    fn is_above(&self, item: &i32) -> bool {
        *item < self.number
    }
}

// A number below this one becomes this one, and another stays.
#[derive(Drop)]
struct AtLeast {
    number: i32,
}

impl Change<i32> for AtLeast {
    ghost use Rattle.std.specs.Prelude.{int_lt, Some, None, if◌then◌else◌};

    ghost changed = { λ least item. if int_lt item least.number then Some least.number else None };

    fn change(&self, item: &i32) -> Option<i32> {
        if *item < self.number {
            Some(self.number)
        } else {
            None
        }
    }
}

// No list of these tests has more items.
const MANY: usize = 2_500;

// Numbers in blocks, with calls that do nothing where the list has no such place.
#[derive(Drop)]
struct Numbers {
    list: BlockList<i32, Number>,
}

impl Numbers {
    fn insert(&mut self, index: usize, number: i32) -> Result<(), NoMemory> {
        self.list.reserve(1)?;
        if index <= self.list.len() && self.list.len() < MANY {
            self.list.insert(index, number);
        }
        Ok(())
    }

    fn remove(&mut self, index: usize) -> Option<i32> {
        if index >= self.list.len() {
            return None;
        }
        Some(self.list.remove(index))
    }

    fn set(&mut self, index: usize, number: i32) {
        if index < self.list.len() {
            self.list.set(index, number);
        }
    }

    fn get(&self, index: usize) -> Option<i32> {
        self.list.get(index).copied()
    }

    fn sum_before(&self, index: usize) -> Option<i64> {
        if index > self.list.len() {
            return None;
        }
        Some(self.list.sum_before(index))
    }

    // Where the sum falls below 0 from an index on, if so much came before, and what the sum is there.
    fn first_below(&self, index: usize, before: i32, end: usize) -> Option<(usize, i64)> {
        if index > end || end > self.list.len() {
            return None;
        }
        let start = Crossing {
            index,
            before: i64::from(before),
        };
        let crossing = self.list.first_below(start, end);
        Some((crossing.index, crossing.before))
    }

    fn point(&self, number: i32) -> usize {
        self.list.partition_point(&Below { number })
    }

    // The first number from a bound on, and the last one before it.
    fn beside(&self, number: i32) -> (Option<i32>, Option<i32>) {
        let bound = Below { number };
        let from = self.list.first_from(&bound).copied();
        (from, self.list.last_before(&bound).copied())
    }

    // Raises the first number from a bound on.
    fn raise_from(&mut self, number: i32, least: i32) {
        let change = AtLeast { number: least };
        self.list.update_first_from(&Below { number }, &change);
    }

    // All numbers, run by run.
    fn walked(&self, alloc: Global) -> Result<Vec<i32>, NoMemory> {
        let mut all = Vec::new(alloc);
        for _ in 0..self.list.len() {
            if all.len() < self.list.len() {
                all.extend_from_slice(self.list.run_from(all.len()))?;
            }
        }
        Ok(all)
    }
}

fn empty(alloc: Global) -> Numbers {
    Numbers {
        list: BlockList::new(alloc),
    }
}

// The numbers from 1 to 300, in order.
fn in_order(alloc: Global) -> Result<Numbers, NoMemory> {
    let mut numbers = empty(alloc);
    for number in 1..=300 {
        let end = numbers.list.len();
        numbers.insert(end, number)?;
    }
    Ok(numbers)
}

// The numbers from 1 to 2,300, of which the last one came first. They fill 35 blocks, and so more than one group.
fn in_groups(alloc: Global) -> Result<Numbers, NoMemory> {
    let mut numbers = empty(alloc);
    for number in (1..=2_300).rev() {
        numbers.insert(0, number)?;
    }
    Ok(numbers)
}

// The next of some numbers that come in no order.
fn scattered(number: u32) -> u32 {
    number.wrapping_mul(1_103_515_245).wrapping_add(12_345)
}

// A place below a count, of those that come in no order.
fn place_below(seed: u32, count: usize) -> usize {
    (seed >> 8) as usize % count.max(1)
}

// Puts 600 numbers into both lists at places in no order, and tells what comes after the last of these.
fn fill(numbers: &mut Numbers, plain: &mut Vec<i32>) -> Result<u32, NoMemory> {
    let mut seed = 7;
    for number in 0..600 {
        seed = scattered(seed);
        let index = place_below(seed, plain.len().saturating_add(1));
        numbers.insert(index, number)?;
        if index <= plain.len() {
            plain.insert(index, number)?;
        }
    }
    Ok(seed)
}

#[test]
fn take_items_in_and_out(rt: HostRuntime) -> Result<(), Fail> {
    let alloc = rt.alloc();
    let mut numbers = empty(alloc);
    let mut plain = Vec::new(alloc);
    let mut seed = fill(&mut numbers, &mut plain)?;
    assert_eq!(rt; plain.len(), 600);
    assert!(rt; numbers.walked(alloc)?.as_slice() == plain.as_slice());
    for _ in 0..500 {
        seed = scattered(seed);
        let index = place_below(seed, 100);
        if index < plain.len() {
            assert_eq!(rt; numbers.remove(index), Some(plain.remove(index)));
        }
    }
    numbers.list.release();
    assert!(rt; numbers.walked(alloc)?.as_slice() == plain.as_slice());
    assert_eq!(rt; (numbers.list.len(), plain.len()), (100, 100));
    numbers.insert(50, 600)?;
    assert_eq!(rt; numbers.get(50), Some(600));
    Ok(())
}

#[test]
fn find_sums_and_bounds(rt: HostRuntime) -> Result<(), Fail> {
    let numbers = in_order(rt.alloc())?;
    assert_eq!(rt; numbers.list.len(), 300);
    for (index, number) in [(299, Some(300)), (300, None)] {
        assert_eq!(rt; numbers.get(index), number, "at {index}");
    }
    for (index, sum) in [(300, 45_150), (128, 8_256)] {
        assert_eq!(rt; numbers.sum_before(index), Some(sum), "at {index}");
    }
    for (number, point) in [
        (0, 0),
        (1, 0),
        (127, 126),
        (128, 127),
        (300, 299),
        (301, 300),
    ] {
        assert_eq!(rt; numbers.point(number), point, "at {number}");
    }
    assert_eq!(rt; numbers.first_below(10, 5, 300), Some((300, 45_100)));
    Ok(())
}

#[test]
fn tell_where_a_sum_falls_below_0(rt: HostRuntime) -> Result<(), Fail> {
    let mut numbers = in_order(rt.alloc())?;
    numbers.insert(200, -25_000)?;
    assert_eq!(rt; numbers.list.len(), 301);
    assert_eq!(rt; numbers.first_below(0, 0, 301), Some((200, 20_100)));
    let enough = numbers.first_below(0, 4_900, 301);
    assert_eq!(rt; enough.map(|(index, _)| index), Some(301));
    numbers.set(200, 1);
    assert_eq!(rt; numbers.sum_before(301), Some(45_151));
    Ok(())
}

#[test]
fn pass_groups_of_blocks(rt: HostRuntime) -> Result<(), Fail> {
    let mut numbers = in_groups(rt.alloc())?;
    assert_eq!(rt; numbers.list.len(), 2_300);
    assert_eq!(rt; numbers.get(2_250), Some(2_251));
    assert_eq!(rt; numbers.sum_before(2_250), Some(2_532_375));
    assert_eq!(rt; numbers.point(2_200), 2_199);
    numbers.set(2_200, -5_000_000);
    assert_eq!(rt;
        numbers.first_below(100, 0, 2_300),
        Some((2_200, 2_416_050))
    );
    assert_eq!(rt; numbers.remove(2_200), Some(-5_000_000));
    assert_eq!(rt; numbers.list.len(), 2_299);
    assert_eq!(rt;
        numbers.first_below(100, 0, 2_299),
        Some((2_299, 2_638_899))
    );
    Ok(())
}

#[test]
fn find_items_at_bounds(rt: HostRuntime) -> Result<(), Fail> {
    let numbers = in_order(rt.alloc())?;
    let table = [
        (0, Some(1), None),
        (1, Some(1), None),
        (2, Some(2), Some(1)),
        (64, Some(64), Some(63)),
        (65, Some(65), Some(64)),
        (127, Some(127), Some(126)),
        (128, Some(128), Some(127)),
        (129, Some(129), Some(128)),
        (254, Some(254), Some(253)),
        (255, Some(255), Some(254)),
        (300, Some(300), Some(299)),
        (301, None, Some(300)),
    ];
    for (number, from, before) in table {
        assert_eq!(rt; numbers.beside(number), (from, before), "at {number}");
    }
    Ok(())
}

#[test]
fn change_items_at_bounds(rt: HostRuntime) -> Result<(), Fail> {
    let mut numbers = in_order(rt.alloc())?;
    numbers.raise_from(2_000, 1_128);
    assert_eq!(rt; numbers.sum_before(300), Some(45_150));
    numbers.raise_from(128, 1_128);
    assert_eq!(rt; numbers.get(127), Some(1_128));
    assert_eq!(rt; numbers.sum_before(300), Some(46_150));
    numbers.raise_from(129, 100);
    assert_eq!(rt; numbers.get(128), Some(129));
    assert_eq!(rt; numbers.list.len(), 300);
    Ok(())
}

#[test]
fn find_nothing_where_there_is_nothing(rt: HostRuntime) {
    let mut numbers = empty(rt.alloc());
    assert_eq!(rt; numbers.beside(1), (None, None));
    numbers.raise_from(1, 1);
    assert_eq!(rt; numbers.list.len(), 0);
}
