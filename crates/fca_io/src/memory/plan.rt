//! The list of the calls that fail, and how many calls were made.

ghost use Rattle.std.specs.Prelude.{◌≡◌, ◌≤◌, IfOk};
ghost use Rattle.fca_io.specs.Faults.{one_more};
ghost use Rattle.fca_io.specs.Forms.{failure_plan_of, fails_next, after_call, with_fault};

use std::alloc::{AllocError, Global};
use std::marker::Model;

/// The list of the calls that fail, and the counts of calls and of faults.
#[derive(Drop)]
pub struct FailingCalls {
    /// The numbers of the calls that fail, counted from 1.
    fails: Vec<usize>,
    /// How many calls were made.
    made: usize,
    /// How many of them failed, for whatever cause.
    faults: usize,
}

impl Model for FailingCalls {
    ghost use Rattle.std.specs.Prelude.{◌<◌, ◌^◌};
    ghost use Rattle.fca_io.specs.Forms.{FailurePlan};

    ghost Value = { FailurePlan };

    ghost view = { λ c. record { fails = c.fails.items; made = c.made; faults = c.faults } };

    ghost invariant = { λ c. c.faults < 2 ^ 64 };
}

impl FailingCalls {
    /// The plan in which no call was made yet.
    pub fn new(alloc: Global, fails: &[usize]) -> Result<FailingCalls, AllocError>
        ensures { IfOk result (λ calls. calls ≡ failure_plan_of fails.now) }
    {
        Ok(FailingCalls {
            fails: Vec::from_slice(alloc, fails)?,
            made: 0,
            faults: 0,
        })
    }

    /// Counts a call. The result says whether it fails.
    pub fn next_fails(&mut self) -> bool
        ensures fails { result ≡ fails_next self.old }
        ensures after { self.new ≡ after_call self.old }
        ensures only_rise { self.old.faults ≤ self.new.faults }
    {
        self.made = one_more(self.made);
        let fails = self.fails.contains(&self.made);
        if fails {
            self.count_fault();
        }
        fails
    }

    /// Counts a fault.
    pub fn count_fault(&mut self)
        ensures after { self.new ≡ with_fault self.old }
        ensures only_rise { self.old.faults ≤ self.new.faults }
    {
        self.faults = one_more(self.faults);
    }
}

/// The next value of a count, which stops at its last one.
pub(super) fn one_more(count: usize) -> usize
    ensures { result ≡ one_more count }
{
    count.saturating_add(1)
}
