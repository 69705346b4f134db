//! The rows of a session that charges with direct current.

ghost use Rattle.std.specs.Prelude.{◌≡◌, true, false, IfSome, is_some};
ghost use Rattle.session_words.specs.declared.phase.Phase.TheVariants as row;
ghost use Rattle.contactor.specs.Rights.{is_ready};
ghost use Rattle.session_rules.specs.Finishing.{is_valid};
ghost use Rattle.session_rules.specs.Laws.{IsNear};
ghost use Rattle.session_rules.specs.Stages.{confirmed};
ghost use Rattle.secc_rows.specs.Rows.{carried_stage};
ghost use Rattle.secc_rows.specs.Leading.{IsAccepted, LeadsTo, right_of, pre_charged};

use crate::carried::{Accepted, Carried};
use crate::kind::Kind;
use crate::setup::Authorized;
use charge_world::Tenths;
use contactor::CloseRight;
use session_rules::{PreCharged, is_valid, law_of_closing, off_of};
use session_words::{Ask, Facts, Progress};

/// Row 7: the charge parameters are agreed.
#[derive(Drop)]
pub(crate) struct DcReady {
    pub(crate) carried: Carried,
}

/// Row 8: the cable was checked.
#[derive(Drop)]
pub(crate) struct DcChecked {
    pub(crate) carried: Carried,
}

/// Row 9: the outlet's voltage goes to the car's.
#[derive(Drop)]
pub(crate) struct DcPreCharging {
    pub(crate) carried: Carried,
}

/// Row 10: the contactor closes, and the reply to PowerDelivery waits for its feedback.
#[derive(Drop)]
pub(crate) struct DcClosing {
    pub(crate) carried: Carried,
}

/// Row 11: the car is charged.
#[derive(Drop)]
pub(crate) struct DcCharging {
    pub(crate) carried: Carried,
}

/// Row 12: charging is stopped.
#[derive(Drop)]
pub(crate) struct DcStopped {
    pub(crate) carried: Carried,
}

/// The row behind a PreCharge for this voltage, in tenths of a volt.
fn pre_charging(carried: Carried, target: u32, facts: &Facts) -> Kind
    ensures { result ≡ pre_charged carried target facts.now }
{
    let mut carried = carried;
    carried.pre_charge = Some(PreCharged {
        target,
        voltage: facts.voltage,
    });
    Kind::DcPreCharging(DcPreCharging { carried })
}

impl DcReady {
    /// CableCheck leads on once the isolation is valid; SessionStop ends the session.
    pub(crate) fn step(self, by: Accepted<'_>) -> Kind
        requires { IsAccepted (carried_stage row.DcReady self.carried) by }
        ensures { LeadsTo (carried_stage row.DcReady self.carried) by.entry result false }
    {
        match by.request.ask {
            Ask::CableCheck { .. } if is_valid(by.facts.isolation) => Kind::DcChecked(DcChecked {
                carried: self.carried,
            }),
            _ => Kind::DcReady(self),
        }
    }
}

impl DcChecked {
    /// PreCharge leads on; SessionStop ends the session.
    pub(crate) fn step(self, by: Accepted<'_>) -> Kind
        requires { IsAccepted (carried_stage row.DcChecked self.carried) by }
        ensures { LeadsTo (carried_stage row.DcChecked self.carried) by.entry result false }
    {
        match by.request.ask {
            Ask::PreCharge { voltage, .. } => pre_charging(self.carried, voltage.size, by.facts),
            _ => Kind::DcChecked(self),
        }
    }
}

impl DcPreCharging {
    /// The right to close the contactor.
    fn right(&self, facts: &Facts) -> CloseRight
        requires pilot { is_ready facts.now.pilot ≡ true }
        requires isolation { is_valid facts.now.isolation ≡ true }
        requires near { IsNear self.now.carried.pre_charge }
        ensures { result ≡ right_of (carried_stage row.DcPreCharging self.now.carried) facts.now }
    {
        let off = Tenths::exactly(off_of(self.carried.pre_charge.unwrap()) as u16);
        CloseRight::dc(facts.pilot, facts.isolation.unwrap(), off)
    }

    /// PreCharge stays; PowerDelivery Start leads on, with the right to close the contactor; SessionStop ends the session.
    pub(crate) fn step(self, by: Accepted<'_>) -> (Kind, Option<CloseRight>)
        requires accepted { IsAccepted (carried_stage row.DcPreCharging self.carried) by }
        requires isolation { is_valid by.facts.now.isolation ≡ true }
        ensures leads { LeadsTo (carried_stage row.DcPreCharging self.carried) by.entry result.0 (is_some result.1) }
        ensures right { IfSome result.1 (λ right. right ≡ right_of (carried_stage row.DcPreCharging self.carried) by.entry.facts.now) }
    {
        match by.request.ask {
            Ask::PreCharge { voltage, .. } => {
                (pre_charging(self.carried, voltage.size, by.facts), None)
            }
            Ask::PowerDelivery {
                progress: Progress::Start,
                ..
            } => {
                law_of_closing();
                let right = self.right(by.facts);
                let next = DcClosing {
                    carried: self.carried,
                };
                (Kind::DcClosing(next), Some(right))
            }
            _ => (Kind::DcPreCharging(self), None),
        }
    }
}

impl DcClosing {
    /// The row behind the reply that waited.
    pub(crate) fn confirmed(self) -> DcCharging
        ensures { carried_stage row.DcCharging result.carried ≡ confirmed (carried_stage row.DcClosing self.carried) }
    {
        DcCharging {
            carried: self.carried,
        }
    }
}

impl DcCharging {
    /// CurrentDemand stays, and tells watts; PowerDelivery Stop leads on, Renegotiate back to the charge parameters; SessionStop ends the
    /// session.
    pub(crate) fn step(self, by: Accepted<'_>) -> Kind
        requires { IsAccepted (carried_stage row.DcCharging self.carried) by }
        ensures { LeadsTo (carried_stage row.DcCharging self.carried) by.entry result false }
    {
        let mut carried = self.carried;
        match by.request.ask {
            Ask::PowerDelivery {
                progress: Progress::Stop,
                ..
            } => Kind::DcStopped(DcStopped { carried }),
            Ask::PowerDelivery {
                progress: Progress::Renegotiate,
                ..
            } => Kind::Authorized(Authorized { carried }),
            Ask::CurrentDemand { .. } => {
                carried.told = by.shown;
                Kind::DcCharging(DcCharging { carried })
            }
            _ => Kind::DcCharging(DcCharging { carried }),
        }
    }
}

impl DcStopped {
    /// WeldingDetection stays, and SessionStop ends the session.
    pub(crate) fn step(self, by: Accepted<'_>) -> Kind
        requires { IsAccepted (carried_stage row.DcStopped self.carried) by }
        ensures { LeadsTo (carried_stage row.DcStopped self.carried) by.entry result false }
    {
        Kind::DcStopped(self)
    }
}
