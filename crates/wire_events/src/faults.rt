//! The failures of a thing of the outside.

ghost use Rattle.std.specs.Prelude.{◌≡◌, ◌+◌, ◌<◌, ◌^◌, ◌-◌, Ok, IsErr, IfOk};
ghost use Rattle.charge_world.specs.Outside.{IsFault};

use charge_world::Failed;
use std::marker::Model;

/// A count of failures. Contracts see the number.
#[derive(Drop)]
pub struct Faults {
    count: u64,
}

impl Model for Faults {
    ghost use Rattle.std.specs.Prelude.{ℕ};

    ghost Value = { ℕ };

    ghost view = { λ f. f.count };
}

impl Faults {
    /// No failure so far.
    pub fn none() -> Faults
        ensures { result ≡ 0 }
    {
        Faults { count: 0 }
    }

    /// Counts a failure of a call, and tells it. At the greatest number, which no run reaches, the call answers `instead`.
    pub fn fail<T: Drop>(&mut self, instead: T) -> Result<T, Failed>
        ensures failed { self.old < 2 ^ 64 - 1 → (self.new ≡ self.old + 1) × IsErr result }
        ensures at_the_end { self.old ≡ 2 ^ 64 - 1 → (self.new ≡ self.old) × (result ≡ Ok instead) }
        ensures answer { IfOk result (λ answer. answer ≡ instead) }
        ensures fault { IsFault self.old self.new result }
    {
        if self.count == u64::MAX {
            return Ok(instead);
        }
        self.count += 1;
        Err(Failed)
    }
}
