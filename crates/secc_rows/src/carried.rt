//! What a session takes along from row to row.

ghost use Rattle.std.specs.Prelude.{◌≡◌};
ghost use Rattle.secc_rows.specs.Rows.{carried_stage};

use charge_world::Dialect;
use session_rules::{PreCharged, Stage};
use session_words::{Facts, Phase, PostPlan, Request, SessionId};

/// Where a session is.
#[derive(Clone, Copy)]
pub struct Place {
    pub row: Phase,
    /// The dialect that was negotiated. In row Connected it says nothing.
    pub dialect: Dialect,
    /// The watts that its replies told last; 0 before.
    pub told: u32,
}

/// What a session takes along from row to row.
#[derive(Drop)]
pub(crate) struct Carried {
    pub(crate) dialect: Dialect,
    pub(crate) session: SessionId,
    /// The watts that its replies told last; 0 before.
    pub(crate) told: u32,
    /// The watts that the PMax of its last schedule spells; 0 without one.
    pub(crate) schedule: u32,
    /// The last PreCharge that was accepted.
    pub(crate) pre_charge: Option<PreCharged>,
}

impl Carried {
    /// What a stage takes along.
    pub(crate) fn of(stage: Stage) -> Carried
        ensures { carried_stage stage.row result ≡ stage }
    {
        Carried {
            dialect: stage.dialect,
            session: stage.session,
            told: stage.told,
            schedule: stage.schedule,
            pre_charge: stage.pre_charge,
        }
    }

    /// The stage of a session in this row.
    pub(crate) fn stage(&self, row: Phase) -> Stage
        ensures { result ≡ carried_stage row self.now }
    {
        Stage {
            row,
            dialect: self.dialect,
            session: self.session.copied(),
            told: self.told,
            schedule: self.schedule,
            pre_charge: self.pre_charge,
        }
    }
}

/// A request that was judged in its row and is accepted, what it was judged by, and the watts that are shown.
#[derive(Clone, Copy)]
pub(crate) struct Accepted<'a> {
    pub(crate) request: &'a Request,
    pub(crate) facts: &'a Facts,
    pub(crate) plan: &'a PostPlan,
    pub(crate) shown: u32,
}
