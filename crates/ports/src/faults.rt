//! The fault of the outside, and the plan of faults that an object in memory follows.
ghost use Rattle.std.specs.Prelude.{◌≡◌, ℕ, ◌-◌, ◌^◌, ◌≤◌, OnOk, OnErr};
ghost use Rattle.causes.specs.Faults.{HasCause, Rose, counted};

use std::marker::Model;
use thiserror::Error;

/// Something outside the program refused a call, such as a read of a closed stream. What refused it is not told: the
/// object that answered counts its faults.
#[derive(Clone, Copy, Debug, PartialEq, Eq, Error)]
#[error("a call of the outside failed")]
pub struct Failed;

/// Which calls of an object in memory are to fail, and how many failed so far.
///
/// Calls are numbered from 0, in the order in which they come. The numbers may stand in any order.
#[derive(Debug, Drop)]
pub struct FailingCalls {
    numbers: Vec<u64>,
    calls: u64,
    faults: u64,
}

impl Model for FailingCalls {
    ghost Value = { ℕ };

    ghost view = { λ plan. plan.faults };

    ghost invariant = { λ plan. plan.faults ≤ 2 ^ 64 - 1 };
}

impl FailingCalls {
    /// Returns a plan by which the calls with these numbers are to fail.
    pub fn new(numbers: Vec<u64>) -> FailingCalls
        ensures none_yet { result ≡ 0 }
    {
        FailingCalls {
            numbers,
            calls: 0,
            faults: 0,
        }
    }

    /// Counts the next call, and refuses it where it is to fail.
    pub fn admit(&mut self) -> Result<(), Failed>
        ensures admitted { OnOk result (self.new ≡ self.old) }
        ensures refused { OnErr result (self.new ≡ counted self.old) }
        ensures cause { HasCause self.old self.new result }
    {
        let fails = self.numbers.contains(&self.calls);
        self.calls = self.calls.saturating_add(1);
        if fails {
            return Err(self.fail());
        }
        Ok(())
    }

    /// Counts a fault, and gives it. The count stands still at its last number.
    pub fn fail(&mut self) -> Failed
        ensures counted { self.new ≡ counted self.old }
        ensures later { self.old ≤ self.new }
        ensures rose { Rose self.old self.new }
    {
        self.faults = self.faults.saturating_add(1);
        Failed
    }

    /// Returns the number of calls that failed so far.
    pub fn faults(&self) -> u64
        ensures { result ≡ self.now }
    {
        self.faults
    }
}
