//! Items of 96 bytes, as movements have, in a list in blocks by their keys.
ghost use Rattle.std.specs.Prelude.{ℤ, pos, ℕ, nat_lt};

use block_list::bound::Bound;
use block_list::list::BlockList;
use block_list::weigh::Weigh;
use std::alloc::Global;
use stock_nums::memory::NoMemory;

// The most items of a list.
const MOST: usize = 1_048_575;

/// An item with a key.
#[derive(Clone, Copy)]
pub(crate) struct Item {
    key: u64,
    rest: [u64; 11],
}

/// That an item counts nothing.
#[derive(Drop)]
pub(crate) struct Nothing;

impl Weigh<Item> for Nothing {
    ghost use Rattle.std.specs.Prelude.{pos};

    ghost weight = { λ item. pos 0 };

    fn weight(_item: &Item) -> i64 {
        0
    }
}

// The items with a smaller key come first.
#[derive(Drop)]
struct Key {
    key: u64,
}

impl Bound<Item> for Key {
    ghost use Rattle.std.specs.Prelude.{nat_lt};

    ghost above = { λ bound item. nat_lt item.key bound.key };

    fn is_above(&self, item: &Item) -> bool {
        item.key < self.key
    }
}

fn with_key(key: u64) -> Item {
    Item {
        key,
        rest: [key; 11],
    }
}

// The next of some numbers that come in no order.
fn scattered(number: u64) -> u64 {
    number
        .wrapping_mul(6_364_136_223_846_793_005)
        .wrapping_add(1_442_695_040_888_963_407)
}

/// So many items in order, and then so many at places in no order.
pub(crate) fn filled(
    alloc: Global,
    ordered: u32,
    others: u32,
) -> Result<BlockList<Item, Nothing>, NoMemory> {
    let mut list = BlockList::new(alloc);
    for number in 0..ordered {
        let end = list.len();
        if end < MOST {
            list.reserve(1)?;
            list.insert(end, with_key(u64::from(number) * 65_536));
        }
    }
    let mut seed = 1;
    for _ in 0..others {
        seed = scattered(seed);
        let key = (seed >> 16) % (u64::from(ordered) * 65_536 + 1);
        if list.len() < MOST {
            list.reserve(1)?;
            list.insert_before(&Key { key }, with_key(key));
        }
    }
    Ok(list)
}

/// A number that the keys of all items make in their order.
pub(crate) fn all_in_one(list: &BlockList<Item, Nothing>) -> u64 {
    let mut all: u64 = 0;
    let mut passed = 0;
    for _ in 0..list.len() {
        if passed >= list.len() {
            break;
        }
        let run = list.run_from(passed);
        for item in run {
            all = all.wrapping_mul(31).wrapping_add(item.key);
        }
        passed += run.len();
    }
    all
}
