//! The calls of a memory form, and which of them fail.
ghost use Rattle.std.specs.Prelude.{◌≡◌, ◌↔◌, Contains, IsErr, OnOk, OnErr};
ghost use Rattle.office_outside.specs.Faults.{HasCause};
ghost use Rattle.office_doors.specs.Calls.{numbered, after_call, after_failure, with_faults};

use office_outside::Failed;
use std::marker::Model;

/// The calls of a memory form, numbered from 0. The counts stay at their last value.
#[derive(Drop)]
pub(crate) struct Calls {
    failing: Vec<u64>,
    calls: u64,
    faults: u64,
}

impl Model for Calls {
    ghost use Rattle.office_doors.specs.Calls.{Numbered};

    ghost Value = { Numbered };

    ghost view = { λ c. record { failing = c.failing.items; calls = c.calls; faults = c.faults } };
}

impl Calls {
    /// The calls whose numbers are in `failing` fail.
    pub(crate) fn new(failing: Vec<u64>) -> Calls
        ensures { result ≡ numbered failing.items }
    {
        Calls {
            failing,
            calls: 0,
            faults: 0,
        }
    }

    /// How many calls failed.
    pub(crate) fn faults(&self) -> u64
        ensures { result ≡ self.now.faults }
    {
        self.faults
    }

    /// Notes a call, which fails where its number is one of those.
    pub(crate) fn note(&mut self) -> Result<(), Failed>
        ensures failing { IsErr result ↔ Contains self.old.failing self.old.calls }
        ensures done { OnOk result (self.new ≡ after_call self.old) }
        ensures failed { OnErr result (self.new ≡ after_failure self.old) }
        ensures cause { HasCause self.old.faults self.new.faults result }
    {
        let fails = self.failing.contains(&self.calls);
        self.calls = self.calls.saturating_add(1);
        if fails {
            self.faults = self.faults.saturating_add(1);
            return Err(Failed);
        }
        Ok(())
    }

    /// Adds the faults of another object.
    pub(crate) fn add(&mut self, faults: u64)
        ensures { self.new ≡ with_faults faults self.old }
    {
        self.faults = self.faults.saturating_add(faults);
    }
}
