//! The faults of the doubles in memory, which are planned by the numbers of calls.
ghost use Rattle.std.specs.Prelude.{◌≡◌, ◌↔◌, IsTrue, if◌then◌else◌};
ghost use Rattle.stock_io.specs.Memory.{new_plan, NextFails, after_call, after_failure, after_fault};
ghost use Rattle.stock_io.specs.Counts.{NeverFalls};

use std::marker::Model;
use stock_nums::lines::Lines;

/// Which calls of a stream in memory fail, and how many calls and faults there were.
#[derive(Drop)]
pub struct FailurePlan {
    failing: Lines<u64>,
    calls: u64,
    faults: u64,
}

impl Model for FailurePlan {
    ghost use Rattle.stock_io.specs.Memory.{Plan};

    ghost Value = { Plan };

    ghost view = { λ plan. record { failing = plan.failing; calls = plan.calls; faults = plan.faults } };
}

impl FailurePlan {
    /// A plan by the numbers of the calls that fail, counted from 1. No call was made yet.
    pub fn new(failing: Lines<u64>) -> FailurePlan
        ensures { result ≡ new_plan failing }
    {
        FailurePlan {
            failing,
            calls: 0,
            faults: 0,
        }
    }

    /// Counts a call, and a fault where it is one of those that fail. Says whether it is.
    pub fn next_fails(&mut self) -> bool
        ensures planned { IsTrue result ↔ NextFails self.old }
        ensures after { self.new ≡
            (if result then after_failure self.old else after_call self.old) }
        ensures never_falls { NeverFalls self.old.faults self.new.faults }
    {
        self.calls = self.calls.saturating_add(1);
        let fails = self.failing.as_slice().contains(&self.calls);
        if fails {
            self.faults = self.faults.saturating_add(1);
        }
        fails
    }

    /// Counts a fault of a call that the plan let through.
    pub fn count_fault(&mut self)
        ensures after { self.new ≡ after_fault self.old }
        ensures never_falls { NeverFalls self.old.faults self.new.faults }
    {
        self.faults = self.faults.saturating_add(1);
    }

    /// How many faults were counted, planned ones and others. The count stays at `u64::MAX`.
    pub fn faults(&self) -> u64
        ensures { result ≡ self.now.faults }
    {
        self.faults
    }
}
