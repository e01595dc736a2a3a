//! Numbers that are added up for lines of vouchers.
ghost use Rattle.std.specs.Prelude.{◌≡◌, ◌+◌, ◌-◌, ◌^◌, ◌<◌, ◌≤◌, true, if◌then◌else◌, OnOk};
ghost use Rattle.stock_nums.specs.LineSums.{number_of, has_room};
ghost use Rattle.stock_nums.specs.Targets.{is_same_target};
ghost use Rattle.stock_nums.specs.declared.cause.Target.{Target};

use crate::cause::Target;
use crate::memory::NoMemory;
use std::alloc::Global;
use std::collections::BTreeMap;

/// A number for each line of a voucher, found by its record and line: 0 where nothing was added. Contracts see it by
/// `number_of`, and by `has_room` the lines whose numbers take no memory to change.
#[derive(Drop)]
pub struct LineSums {
    by_line: BTreeMap<Target, u128>,
}

impl LineSums {
    /// 0 for each line. It takes no memory.
    pub fn new(alloc: Global) -> LineSums
        ensures { (line : Target) → number_of result line ≡ 0 }
    {
        LineSums {
            by_line: BTreeMap::new(alloc),
        }
    }

    /// The number of the line.
    pub fn of(&self, line: Target) -> u128
        ensures { result ≡ number_of self.now line }
    {
        match self.by_line.get(&line) {
            Some(number) => *number,
            None => 0,
        }
    }

    /// Makes room for the number of the line. It changes no number, and takes no room away.
    pub fn reserve(&mut self, line: Target) -> Result<(), NoMemory>
        ensures same { (other : Target) → number_of self.new other ≡ number_of self.old other }
        ensures kept { (other : Target) → has_room self.old other ≡ true → has_room self.new other ≡ true }
        ensures room { OnOk result (has_room self.new line ≡ true) }
    {
        let number = self.of(line);
        self.by_line.insert(line, number)?;
        Ok(())
    }

    /// Adds to the number of a line for which there is room. It takes no memory.
    pub fn add(&mut self, line: Target, number: u128)
        requires room { has_room self.old line ≡ true }
        requires fits { number_of self.old line + number < 2 ^ 128 }
        ensures added { (other : Target) → number_of self.new other ≡ number_of self.old other + (if is_same_target line other then number else 0) }
        ensures kept { (other : Target) → has_room self.old other ≡ true → has_room self.new other ≡ true }
    {
        let sum = self.of(line) + number;
        let _ = self.by_line.insert(line, sum);
    }

    /// Takes from the number of a line, which is no less. It takes no memory, and no room away.
    pub fn subtract(&mut self, line: Target, number: u128)
        requires within { number ≤ number_of self.old line }
        ensures kept { (other : Target) → has_room self.old other ≡ true → has_room self.new other ≡ true }
        ensures taken { (other : Target) → number_of self.new other ≡ number_of self.old other - (if is_same_target line other then number else 0) }
    {
        let before = self.of(line);
        if before > 0 {
            let _ = self.by_line.insert(line, before - number);
        }
    }
}
