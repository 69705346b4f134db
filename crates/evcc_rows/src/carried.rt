//! What a session takes along from one request to the next.

ghost use Rattle.std.specs.Prelude.{◌≡◌, ◌≤◌};
ghost use Rattle.evcc_rows.specs.Carrying.{carried_stage, charged_stage};

use car_rules::{CarPhase, CarStage};
use charge_world::Dialect;
use session_words::SessionId;
use std::marker::Model;

/// The charging replies of a session that may still charge: at most 9,999, as a plan has at most 10,000. Contracts see the number.
#[derive(Drop)]
pub struct Cycles {
    replies: u32,
}

impl Model for Cycles {
    ghost use Rattle.std.specs.Prelude.{ℕ, ◌≤◌};

    ghost Value = { ℕ };

    ghost view = { λ c. c.replies };

    ghost invariant = { λ c. c.replies ≤ 9999 };
}

impl Cycles {
    /// So many, which a plan has to leave fewer than its own.
    pub(crate) fn of(replies: u32) -> Cycles
        requires { replies ≤ 9999 }
        ensures { result ≡ replies }
    {
        Cycles { replies }
    }

    fn count(&self) -> u32
        ensures value { result ≡ self.now }
        ensures few { result ≤ 9999 }
    {
        self.replies
    }
}

/// What a session takes along that may still charge.
#[derive(Drop)]
pub struct Carried {
    pub(crate) dialect: Dialect,
    pub(crate) session: SessionId,
    pub(crate) cycles: Cycles,
}

impl Carried {
    /// The stage of a session whose request is this phase's.
    pub(crate) fn stage(&self, phase: CarPhase) -> CarStage
        ensures value { result ≡ carried_stage phase self.now }
        ensures few { result.cycles ≤ 9999 }
    {
        CarStage {
            phase,
            dialect: self.dialect,
            session: self.session.copied(),
            cycles: self.cycles.count(),
        }
    }
}

/// What a session takes along that stopped charging.
#[derive(Drop)]
pub struct Charged {
    pub(crate) dialect: Dialect,
    pub(crate) session: SessionId,
    /// The charging replies.
    pub(crate) cycles: u32,
}

impl Charged {
    /// The stage of a session whose request is this phase's.
    pub(crate) fn stage(&self, phase: CarPhase) -> CarStage
        ensures { result ≡ charged_stage phase self.now }
    {
        CarStage {
            phase,
            dialect: self.dialect,
            session: self.session.copied(),
            cycles: self.cycles,
        }
    }
}
