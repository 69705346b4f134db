//! The rows of a session that charges with alternating current.

ghost use Rattle.std.specs.Prelude.{◌≡◌, false, IfSome, is_some};
ghost use Rattle.session_words.specs.declared.phase.Phase.TheVariants as row;
ghost use Rattle.session_rules.specs.Stages.{confirmed};
ghost use Rattle.secc_rows.specs.Rows.{carried_stage};
ghost use Rattle.secc_rows.specs.Leading.{IsAccepted, LeadsTo, right_of};

use crate::carried::{Accepted, Carried};
use crate::kind::Kind;
use crate::setup::Authorized;
use contactor::CloseRight;
use session_rules::law_of_closing;
use session_words::{Ask, Progress};

/// Row 13: the charge parameters are agreed.
#[derive(Drop)]
pub(crate) struct AcReady {
    pub(crate) carried: Carried,
}

/// Row 14: the contactor closes, and the reply to PowerDelivery waits for its feedback.
#[derive(Drop)]
pub(crate) struct AcClosing {
    pub(crate) carried: Carried,
}

/// Row 15: the car is charged.
#[derive(Drop)]
pub(crate) struct AcCharging {
    pub(crate) carried: Carried,
}

/// Row 16: charging is stopped.
#[derive(Drop)]
pub(crate) struct AcStopped {
    pub(crate) carried: Carried,
}

impl AcReady {
    /// PowerDelivery Start leads on, with the right to close the contactor; SessionStop ends the session.
    pub(crate) fn step(self, by: Accepted<'_>) -> (Kind, Option<CloseRight>)
        requires { IsAccepted (carried_stage row.AcReady self.carried) by }
        ensures leads { LeadsTo (carried_stage row.AcReady self.carried) by.entry result.0 (is_some result.1) }
        ensures right { IfSome result.1 (λ right. right ≡ right_of (carried_stage row.AcReady self.carried) by.entry.facts.now) }
    {
        match by.request.ask {
            Ask::PowerDelivery {
                progress: Progress::Start,
                ..
            } => {
                law_of_closing();
                let right = CloseRight::ac(by.facts.pilot);
                let next = AcClosing {
                    carried: self.carried,
                };
                (Kind::AcClosing(next), Some(right))
            }
            _ => (Kind::AcReady(self), None),
        }
    }
}

impl AcClosing {
    /// The row behind the reply that waited.
    pub(crate) fn confirmed(self) -> AcCharging
        ensures { carried_stage row.AcCharging result.carried ≡ confirmed (carried_stage row.AcClosing self.carried) }
    {
        AcCharging {
            carried: self.carried,
        }
    }
}

impl AcCharging {
    /// ChargingStatus stays, and tells watts; PowerDelivery Stop leads on, Renegotiate back to the charge parameters; SessionStop ends the
    /// session.
    pub(crate) fn step(self, by: Accepted<'_>) -> Kind
        requires { IsAccepted (carried_stage row.AcCharging self.carried) by }
        ensures { LeadsTo (carried_stage row.AcCharging self.carried) by.entry result false }
    {
        let mut carried = self.carried;
        match by.request.ask {
            Ask::PowerDelivery {
                progress: Progress::Stop,
                ..
            } => Kind::AcStopped(AcStopped { carried }),
            Ask::PowerDelivery {
                progress: Progress::Renegotiate,
                ..
            } => Kind::Authorized(Authorized { carried }),
            Ask::ChargingStatus => {
                carried.told = by.shown;
                Kind::AcCharging(AcCharging { carried })
            }
            _ => Kind::AcCharging(AcCharging { carried }),
        }
    }
}

impl AcStopped {
    /// SessionStop ends the session.
    pub(crate) fn step(self, by: Accepted<'_>) -> Kind
        requires { IsAccepted (carried_stage row.AcStopped self.carried) by }
        ensures { LeadsTo (carried_stage row.AcStopped self.carried) by.entry result false }
    {
        Kind::AcStopped(self)
    }
}
