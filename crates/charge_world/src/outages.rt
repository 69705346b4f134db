//! Which calls of a fake fail.

ghost use Rattle.std.specs.Prelude.{◌≡◌};
ghost use Rattle.charge_world.specs.Fakes.{Counts};

use std::marker::Model;

/// The numbers of the calls that fail, counted from 1 over all calls that can fail, and how many did.
#[derive(Drop)]
pub(crate) struct Outages {
    failing: Vec<u32>,
    calls: u32,
    faults: u32,
}

impl Model for Outages {
    ghost use Rattle.std.specs.Prelude.{◌≤◌};
    ghost use Rattle.charge_world.specs.Fakes.{Failures};

    ghost Value = { Failures };

    ghost view = { λ o. record { failing = o.failing.items; calls = o.calls; faults = o.faults } };

    ghost invariant = { λ o. o.faults ≤ o.calls };
}

impl Outages {
    pub(crate) fn of(failing: Vec<u32>) -> Outages
        ensures { result ≡ record { failing = failing.items; calls = 0; faults = 0 } }
    {
        Outages {
            failing,
            calls: 0,
            faults: 0,
        }
    }

    /// Counts a call, and answers whether it fails. The calls behind the 2^32 - 1st don't.
    pub(crate) fn fails(&mut self) -> bool
        ensures { Counts self.old result self.new }
    {
        if self.calls == u32::MAX {
            return false;
        }
        self.calls += 1;
        let fails = self.failing.contains(&self.calls);
        if fails {
            self.faults += 1;
        }
        fails
    }
}
