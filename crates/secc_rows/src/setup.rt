//! The rows up to the charge parameters.

ghost use Rattle.std.specs.Prelude.{◌≡◌, false};
ghost use Rattle.session_words.specs.declared.phase.Phase.TheVariants as row;
ghost use Rattle.session_rules.specs.Stages.{negotiated};
ghost use Rattle.secc_rows.specs.Rows.{carried_stage};
ghost use Rattle.secc_rows.specs.Leading.{IsAccepted, LeadsTo};

use crate::ac::AcReady;
use crate::carried::{Accepted, Carried};
use crate::dc::DcReady;
use crate::kind::Kind;
use charge_world::Dialect;
use session_rules::{is_ac, is_finished, joins, p_max_of};
use session_words::Ask;

/// Row 1: a connection came. Its identifier is the one that its token gives.
#[derive(Drop)]
pub(crate) struct Connected {
    pub(crate) carried: Carried,
}

/// Row 2: a dialect was negotiated.
#[derive(Drop)]
pub(crate) struct Negotiated {
    pub(crate) carried: Carried,
}

/// Row 3: the session has its identifier.
#[derive(Drop)]
pub(crate) struct SetUp {
    pub(crate) carried: Carried,
}

/// Row 4: the services were told.
#[derive(Drop)]
pub(crate) struct Discovered {
    pub(crate) carried: Carried,
}

/// Row 5: payment and services are selected.
#[derive(Drop)]
pub(crate) struct Selected {
    pub(crate) carried: Carried,
}

/// Row 6: charging is authorized. A renegotiation comes back to it.
#[derive(Drop)]
pub(crate) struct Authorized {
    pub(crate) carried: Carried,
}

impl Connected {
    /// A dialect is chosen.
    pub(crate) fn negotiated(self, dialect: Dialect) -> Negotiated
        ensures { carried_stage row.Negotiated result.carried ≡ negotiated (carried_stage row.Connected self.carried) dialect }
    {
        let Connected { mut carried } = self;
        carried.dialect = dialect;
        Negotiated { carried }
    }
}

impl Negotiated {
    /// SessionSetup leads on. Where it joins the paused session, that one's identifier is the session's.
    pub(crate) fn step(self, by: Accepted<'_>) -> Kind
        requires { IsAccepted (carried_stage row.Negotiated self.carried) by }
        ensures { LeadsTo (carried_stage row.Negotiated self.carried) by.entry result false }
    {
        match by.request.ask {
            Ask::SessionSetup { .. } => {
                let mut carried = self.carried;
                if joins(carried.dialect, by.facts, &by.request.session) {
                    carried.session = by.request.session.copied();
                }
                Kind::SetUp(SetUp { carried })
            }
            _ => Kind::Negotiated(self),
        }
    }
}

impl SetUp {
    /// ServiceDiscovery leads on; SessionStop ends the session.
    pub(crate) fn step(self, by: Accepted<'_>) -> Kind
        requires { IsAccepted (carried_stage row.SetUp self.carried) by }
        ensures { LeadsTo (carried_stage row.SetUp self.carried) by.entry result false }
    {
        match by.request.ask {
            Ask::ServiceDiscovery => Kind::Discovered(Discovered {
                carried: self.carried,
            }),
            _ => Kind::SetUp(self),
        }
    }
}

impl Discovered {
    /// PaymentSelection leads on, ServiceDetail stays; SessionStop ends the session.
    pub(crate) fn step(self, by: Accepted<'_>) -> Kind
        requires { IsAccepted (carried_stage row.Discovered self.carried) by }
        ensures { LeadsTo (carried_stage row.Discovered self.carried) by.entry result false }
    {
        match by.request.ask {
            Ask::PaymentSelection { .. } => Kind::Selected(Selected {
                carried: self.carried,
            }),
            _ => Kind::Discovered(self),
        }
    }
}

impl Selected {
    /// Authorization leads on once the post is free, somebody paid or a paused session is joined; SessionStop ends the session.
    pub(crate) fn step(self, by: Accepted<'_>) -> Kind
        requires { IsAccepted (carried_stage row.Selected self.carried) by }
        ensures { LeadsTo (carried_stage row.Selected self.carried) by.entry result false }
    {
        match by.request.ask {
            Ask::Authorization if is_finished(by.facts, by.plan, &by.request.ask, by.shown) => {
                Kind::Authorized(Authorized {
                    carried: self.carried,
                })
            }
            _ => Kind::Selected(self),
        }
    }
}

impl Authorized {
    /// ChargeParameterDiscovery leads on where watts are shown, to the rows of the post's current; SessionStop ends the session.
    pub(crate) fn step(self, by: Accepted<'_>) -> Kind
        requires { IsAccepted (carried_stage row.Authorized self.carried) by }
        ensures { LeadsTo (carried_stage row.Authorized self.carried) by.entry result false }
    {
        let Ask::ChargeParameters { .. } = by.request.ask else {
            return Kind::Authorized(self);
        };
        let mut carried = self.carried;
        carried.told = by.shown;
        if by.shown == 0 {
            return Kind::Authorized(Authorized { carried });
        }
        carried.schedule = p_max_of(carried.dialect, by.shown);
        if is_ac(by.plan.mode) {
            Kind::AcReady(AcReady { carried })
        } else {
            Kind::DcReady(DcReady { carried })
        }
    }
}
