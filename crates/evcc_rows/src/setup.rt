//! The requests up to the charge parameters.

ghost use Rattle.std.specs.Prelude.{◌≡◌};
ghost use Rattle.car_rules.specs.Stages.{first_stage};
ghost use Rattle.car_rules.specs.declared.stage.CarPhase.TheVariants as phase;
ghost use Rattle.evcc_rows.specs.Carrying.{carried_stage};
ghost use Rattle.evcc_rows.specs.Leading.{LeadsOn};

use crate::carried::{Carried, Cycles};
use crate::power::{CableChecking, Starting};
use crate::row::{Moved, Row};
use car_rules::{CarStage, says_finished};
use charge_world::Dialect;
use session_rules::is_ac;
use session_words::{CarPlan, Reply};

/// SessionSetup.
#[derive(Drop)]
pub struct SettingUp {
    pub(crate) carried: Carried,
}

/// ServiceDiscovery.
#[derive(Drop)]
pub struct Discovering {
    pub(crate) carried: Carried,
}

/// PaymentServiceSelection.
#[derive(Drop)]
pub struct Selecting {
    pub(crate) carried: Carried,
}

/// Authorization, until it is finished.
#[derive(Drop)]
pub struct Authorizing {
    pub(crate) carried: Carried,
}

/// ChargeParameterDiscovery, until it is finished. A renegotiation comes back to it.
#[derive(Drop)]
pub struct Asking {
    pub(crate) carried: Carried,
}

impl SettingUp {
    /// A dialect was chosen. The identifier is that of the session to come back to, and eight zero bytes where there is none.
    pub fn enter(plan: &CarPlan, dialect: Dialect) -> SettingUp
        ensures { carried_stage phase.SettingUp result.carried ≡ first_stage plan.now dialect }
    {
        let CarStage {
            phase: _,
            dialect,
            session,
            cycles: _,
        } = CarStage::new(plan, dialect);
        SettingUp {
            carried: Carried {
                dialect,
                session,
                cycles: Cycles::of(0),
            },
        }
    }

    /// The reply gives the session its identifier.
    pub(crate) fn onward(self, reply: &Reply, stop: bool, plan: &CarPlan) -> Moved
        ensures { LeadsOn plan.now (carried_stage phase.SettingUp self.carried) reply.now stop result }
    {
        let SettingUp { carried } = self;
        let Carried {
            dialect,
            session: _,
            cycles,
        } = carried;
        Moved::Goes(Row::Discovering(Discovering {
            carried: Carried {
                dialect,
                session: reply.session.copied(),
                cycles,
            },
        }))
    }
}

impl Discovering {
    /// The post offers the car's mode.
    pub(crate) fn onward(self, reply: &Reply, stop: bool, plan: &CarPlan) -> Moved
        ensures { LeadsOn plan.now (carried_stage phase.Discovering self.carried) reply.now stop result }
    {
        let Discovering { carried } = self;
        Moved::Goes(Row::Selecting(Selecting { carried }))
    }
}

impl Selecting {
    /// The selection leads on.
    pub(crate) fn onward(self, reply: &Reply, stop: bool, plan: &CarPlan) -> Moved
        ensures { LeadsOn plan.now (carried_stage phase.Selecting self.carried) reply.now stop result }
    {
        let Selecting { carried } = self;
        Moved::Goes(Row::Authorizing(Authorizing { carried }))
    }
}

impl Authorizing {
    /// Finished leads on.
    pub(crate) fn onward(self, reply: &Reply, stop: bool, plan: &CarPlan) -> Moved
        ensures { LeadsOn plan.now (carried_stage phase.Authorizing self.carried) reply.now stop result }
    {
        if !says_finished(&reply.tell) {
            return Moved::Waits(Row::Authorizing(self));
        }
        let Authorizing { carried } = self;
        Moved::Goes(Row::Asking(Asking { carried }))
    }
}

impl Asking {
    /// Finished leads on: to the cable check, or in alternating current to PowerDelivery Start.
    pub(crate) fn onward(self, reply: &Reply, stop: bool, plan: &CarPlan) -> Moved
        ensures { LeadsOn plan.now (carried_stage phase.Asking self.carried) reply.now stop result }
    {
        if !says_finished(&reply.tell) {
            return Moved::Waits(Row::Asking(self));
        }
        let Asking { carried } = self;
        Moved::Goes(if is_ac(plan.mode) {
            Row::Starting(Starting { carried })
        } else {
            Row::CableChecking(CableChecking { carried })
        })
    }
}
