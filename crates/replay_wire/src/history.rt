//! The steps of a wire so far. They exist in proofs alone, and the calls do nothing at run time.

ghost use Rattle.std.specs.Prelude.{◌≡◌, []};
ghost use Rattle.std.specs.Borrow.{ftrue};
ghost use Rattle.replay_wire.specs.Telling.{Telling, told_behind};

use crate::told::Step;
use std::marker::Model;

/// What is told of a wire.
#[derive(Drop)]
pub(crate) struct History {
    ghost told: { Telling },
}

impl Model for History {
    ghost also_owns = { λ _. ftrue };
}

impl History {
    /// Of a wire that was just made.
    pub(crate) fn new() -> History
        ensures { result.told ≡ record { past = []; untils = []; faults = 0 } }
    {
        History {}
    }

    /// The same, and one step more.
    pub(crate) fn then(&self, _step: &Step<'_>) -> History
        ensures { result.told ≡ told_behind self.now.told _step.now }
    {
        History {}
    }
}
