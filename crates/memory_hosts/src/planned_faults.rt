ghost use Rattle.std.specs.Prelude.{◌≡◌, ◌+◌, ◌-◌, ◌^◌, ◌≤◌, ◌↔◌, min, Contains, IsTrue};
ghost use Rattle.std.specs.Bool.{OnTrue, OnFalse};
ghost use Rattle.cov_host.specs.Outside.{IsCounted};

use cov_host::{Calls, raise};

/// The calls that are to fail, by their numbers from 1, with how many calls there were and how many of them failed.
/// Both counts stay at their greatest value.
#[derive(Drop)]
pub(crate) struct PlannedFaults {
    failing: Calls,
    calls: u64,
    faults: u64,
}

impl PlannedFaults {
    /// No call yet.
    pub(crate) fn new(failing: Calls) -> Self
        ensures { result ≡ record { failing = failing; calls = 0; faults = 0 } }
    {
        PlannedFaults {
            failing,
            calls: 0,
            faults: 0,
        }
    }

    /// Counts one call more, and says whether it is to fail.
    pub(crate) fn next_call_fails(&mut self) -> bool
        ensures failing { self.new.failing ≡ self.old.failing }
        ensures calls { self.new.calls ≡ min (self.old.calls + 1) (2 ^ 64 - 1) }
        ensures fails { IsTrue result ↔ Contains self.old.failing self.new.calls }
        ensures counted { OnTrue result (IsCounted self.old.faults self.new.faults) }
        ensures uncounted { OnFalse result (self.new.faults ≡ self.old.faults) }
        ensures no_fewer { self.old.faults ≤ self.new.faults }
    {
        self.calls = self.calls.saturating_add(1);
        let fails = self.failing.as_slice().contains(&self.calls);
        if fails {
            raise(&mut self.faults);
        }
        fails
    }
}
