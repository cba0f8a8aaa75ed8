// Which calls of an object in memory are to fail, so that tests meet each fault.
ghost use Rattle.std.specs.Prelude.{◌≡◌, ◌==◌, ◌≤◌, IsTrue};
ghost use Rattle.std.specs.List.{list_any};
ghost use Rattle.zw_base.specs.Outside.{Rose};
ghost use Rattle.zw_base.specs.Plan.{fails_next, after_call, after_fault};

use crate::seq::Seq;
use std::marker::Model;

/// The numbers of the calls that are to fail, counted from 1, and the counts of calls and faults,
/// which stand still at the end of their type.
#[derive(Debug, Drop)]
pub struct FaultPlan {
    failing: Seq<u64>,
    calls: u64,
    faults: u64,
}

impl Model for FaultPlan {
    ghost use Rattle.zw_base.specs.Outside.{Rose};
    ghost use Rattle.zw_base.specs.Plan.{Plan};

    ghost Value = { Plan };

    ghost view = { λ p. record { failing = p.failing; calls = p.calls; faults = p.faults } };
}

impl FaultPlan {
    /// A plan before the first call.
    pub fn new(failing: Seq<u64>) -> FaultPlan
        ensures { result ≡ record { failing = failing; calls = 0; faults = 0 } }
    {
        FaultPlan {
            failing,
            calls: 0,
            faults: 0,
        }
    }

    /// Counts a call, and says whether it is to fail.
    pub fn call(&mut self) -> bool
        ensures fails { result ≡ fails_next self.old }
        ensures after { self.new ≡ after_call self.old }
        ensures grows { self.old.faults ≤ self.new.faults }
        ensures rose { IsTrue result → Rose self.old.faults self.new.faults }
    {
        self.calls = self.calls.saturating_add(1);
        let fails = contains(self.failing.as_slice(), self.calls);
        if fails {
            self.faults = self.faults.saturating_add(1);
        }
        fails
    }

    /// Counts a fault that the plan did not name.
    pub fn fault(&mut self)
        ensures after { self.new ≡ after_fault self.old }
        ensures grows { self.old.faults ≤ self.new.faults }
        ensures rose { Rose self.old.faults self.new.faults }
    {
        self.faults = self.faults.saturating_add(1);
    }
}

fn contains(numbers: &[u64], wanted: u64) -> bool
    ensures { result ≡ list_any (λ n. n == wanted) numbers.now }
{
    numbers.iter().any(|n| *n == wanted)
}
