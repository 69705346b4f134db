//! The requests from the cable check on.

ghost use Rattle.std.specs.Prelude.{◌≡◌};
ghost use Rattle.session_words.specs.Plans.{IsCarPlan};
ghost use Rattle.car_rules.specs.Moves.{welding_phase};
ghost use Rattle.car_rules.specs.declared.stage.CarPhase.TheVariants as phase;
ghost use Rattle.evcc_rows.specs.Carrying.{carried_stage, charged_stage, stage_of};
ghost use Rattle.evcc_rows.specs.Leading.{LeadsOn};

use crate::carried::{Carried, Charged, Cycles};
use crate::right::CloseRight;
use crate::row::{Moved, Row};
use crate::setup::Asking;
use car_rules::{CarPhase, CarStage, says_finished, stage_behind};
use session_rules::is_ac;
use session_words::{CarPlan, Reply};

/// CableCheck, until it is finished.
#[derive(Drop)]
pub struct CableChecking {
    pub(crate) carried: Carried,
}

/// PreCharge, until the voltage is within 20.0 V of its target.
#[derive(Drop)]
pub struct PreCharging {
    pub(crate) carried: Carried,
}

/// PowerDelivery Start.
#[derive(Drop)]
pub struct Starting {
    pub(crate) carried: Carried,
}

/// CurrentDemand in direct current, ChargingStatus in alternating current, until charging stops.
#[derive(Drop)]
pub struct Charging {
    pub(crate) carried: Carried,
}

/// PowerDelivery Stop.
#[derive(Drop)]
pub struct Stopping {
    pub(crate) charged: Charged,
}

/// PowerDelivery Renegotiate, which leads back to the charge parameters.
#[derive(Drop)]
pub struct Renegotiating {
    pub(crate) carried: Carried,
}

/// WeldingDetection.
#[derive(Drop)]
pub struct Welding {
    pub(crate) charged: Charged,
    /// So many more come behind this one.
    pub(crate) left: u8,
}

/// SessionStop.
#[derive(Drop)]
pub struct Ending {
    pub(crate) charged: Charged,
}

/// What comes once so many welding detections are to come.
fn weldings(charged: Charged, n: u8) -> Row
    ensures { stage_of result ≡ charged_stage (welding_phase n) charged }
{
    if n == 0 {
        Row::Ending(Ending { charged })
    } else {
        Row::Welding(Welding {
            charged,
            left: n - 1,
        })
    }
}

impl CableChecking {
    /// Finished leads on.
    pub(crate) fn onward(self, reply: &Reply, stop: bool, plan: &CarPlan) -> Moved
        ensures { LeadsOn plan.now (carried_stage phase.CableChecking self.carried) reply.now stop result }
    {
        if !says_finished(&reply.tell) {
            return Moved::Waits(Row::CableChecking(self));
        }
        let CableChecking { carried } = self;
        Moved::Goes(Row::PreCharging(PreCharging { carried }))
    }
}

impl PreCharging {
    /// A voltage within 20.0 V of the target leads on, with the right to close the contactor.
    pub(crate) fn onward(self, reply: &Reply, stop: bool, plan: &CarPlan) -> Moved
        ensures { LeadsOn plan.now (carried_stage phase.PreCharging self.carried) reply.now stop result }
    {
        match CloseRight::pre_charged(plan.target_voltage, &reply.tell) {
            Some(right) => {
                let PreCharging { carried } = self;
                Moved::Closes(Row::Starting(Starting { carried }), right)
            }
            None => Moved::Waits(Row::PreCharging(self)),
        }
    }
}

impl Starting {
    /// The car charges; in alternating current with the right to close the contactor.
    pub(crate) fn onward(self, reply: &Reply, stop: bool, plan: &CarPlan) -> Moved
        ensures { LeadsOn plan.now (carried_stage phase.Starting self.carried) reply.now stop result }
    {
        let Starting { carried } = self;
        let next = Row::Charging(Charging { carried });
        if is_ac(plan.mode) {
            Moved::Closes(next, CloseRight::started())
        } else {
            Moved::Goes(next)
        }
    }
}

impl Charging {
    /// Charging stops once the planned replies came, the post asks for it, or somebody asked to stop (`stop`). In ISO the post may ask to
    /// negotiate anew.
    #[tactic(auto, using(crate::proofs::Charging::few_on))]
    pub(crate) fn onward(self, reply: &Reply, stop: bool, plan: &CarPlan) -> Moved
        requires { IsCarPlan plan.now }
        ensures { LeadsOn plan.now (carried_stage phase.Charging self.carried) reply.now stop result }
    {
        let stage = self.carried.stage(CarPhase::Charging);
        let CarStage {
            phase,
            dialect,
            session,
            cycles,
        } = stage_behind(plan, &stage, reply, stop);
        if let CarPhase::Stopping = phase {
            return Moved::Goes(Row::Stopping(Stopping {
                charged: Charged {
                    dialect,
                    session,
                    cycles,
                },
            }));
        }
        let carried = Carried {
            dialect,
            session,
            cycles: Cycles::of(cycles),
        };
        match phase {
            CarPhase::Renegotiating => Moved::Goes(Row::Renegotiating(Renegotiating { carried })),
            _ => Moved::Waits(Row::Charging(Charging { carried })),
        }
    }
}

impl Stopping {
    /// The contactor opens; in direct current the planned welding detections follow.
    pub(crate) fn onward(self, reply: &Reply, stop: bool, plan: &CarPlan) -> Moved
        ensures { LeadsOn plan.now (charged_stage phase.Stopping self.charged) reply.now stop result }
    {
        let Stopping { charged } = self;
        if is_ac(plan.mode) {
            Moved::Opens(Row::Ending(Ending { charged }))
        } else {
            Moved::Opens(weldings(charged, plan.welding))
        }
    }
}

impl Renegotiating {
    /// The contactor opens, and the charge parameters are asked for anew.
    pub(crate) fn onward(self, reply: &Reply, stop: bool, plan: &CarPlan) -> Moved
        ensures { LeadsOn plan.now (carried_stage phase.Renegotiating self.carried) reply.now stop result }
    {
        let Renegotiating { carried } = self;
        Moved::Opens(Row::Asking(Asking { carried }))
    }
}

impl Welding {
    /// One fewer is left.
    pub(crate) fn onward(self, reply: &Reply, stop: bool, plan: &CarPlan) -> Moved
        ensures { LeadsOn plan.now (charged_stage (phase.Welding self.left) self.charged) reply.now stop result }
    {
        let Welding { charged, left } = self;
        Moved::Goes(weldings(charged, left))
    }
}
