ghost use Rattle.std.specs.Prelude.{◌≡◌, ◌≤◌, IsTrue, if◌then◌else◌};
ghost use Rattle.outer_io.specs.Causes.{Rose, next_count};
ghost use Rattle.outer_io.specs.FailingCalls.{fails_next, IsCounted};

use task_model::Row;

/// Which calls of an object in memory fail, how many were made, and how many faults there were.
#[derive(Drop)]
pub(crate) struct FailingCalls {
    pub(crate) failing: Row<u64>,
    pub(crate) calls: u64,
    pub(crate) faults: u64,
}

impl FailingCalls {
    /// `failing` lists the calls that fail, counted from 1.
    pub(crate) fn new(failing: Row<u64>) -> FailingCalls
        ensures { result ≡ record { failing = failing; calls = 0; faults = 0 } }
    {
        FailingCalls {
            failing,
            calls: 0,
            faults: 0,
        }
    }

    /// Counts the next call, and answers whether it fails.
    pub(crate) fn next_fails(&mut self) -> bool
        ensures fails { result ≡ fails_next self.old }
        ensures counted { IsCounted self.old self.new }
        ensures count { self.old.faults ≤ self.new.faults }
        ensures failed { IsTrue result → Rose self.old.faults self.new.faults }
        ensures exact { self.new.faults ≡ if result then next_count self.old.faults else self.old.faults }
    {
        self.calls = self.calls.saturating_add(1);
        let fails = self.failing.as_slice().contains(&self.calls);
        if fails {
            self.add_fault();
        }
        fails
    }

    /// Counts a fault.
    pub(crate) fn add_fault(&mut self)
        ensures calls { self.new.calls ≡ self.old.calls }
        ensures failing { self.new.failing ≡ self.old.failing }
        ensures count { self.old.faults ≤ self.new.faults }
        ensures failed { Rose self.old.faults self.new.faults }
        ensures exact { self.new.faults ≡ next_count self.old.faults }
    {
        self.faults = self.faults.saturating_add(1);
    }
}
