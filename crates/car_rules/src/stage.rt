//! What a car's session keeps that the rules speak of.

ghost use Rattle.std.specs.Prelude.{◌≡◌};
ghost use Rattle.car_rules.specs.Stages as rule;

use charge_world::Dialect;
use session_words::{CarPlan, SessionId};

/// The request whose reply the car awaits, or that it asks once more. Each has the name of what the car does with it.
#[derive(Clone, Copy)]
pub enum CarPhase {
    /// SessionSetup.
    SettingUp,
    /// ServiceDiscovery.
    Discovering,
    /// PaymentServiceSelection.
    Selecting,
    /// Authorization, until it is finished.
    Authorizing,
    /// ChargeParameterDiscovery, until it is finished.
    Asking,
    /// CableCheck, until it is finished.
    CableChecking,
    /// PreCharge, until the voltage is within 20.0 V of its target.
    PreCharging,
    /// PowerDelivery Start.
    Starting,
    /// CurrentDemand in DC, ChargingStatus in AC, until charging stops.
    Charging,
    /// PowerDelivery Stop.
    Stopping,
    /// PowerDelivery Renegotiate, which leads back to `Asking`.
    Renegotiating,
    /// WeldingDetection, with so many more behind this one.
    Welding { left: u8 },
    /// SessionStop.
    Ending,
}

/// What a car's session keeps from one request to the next, once a dialect was chosen.
#[derive(Drop)]
pub struct CarStage {
    pub phase: CarPhase,
    /// The dialect that was chosen.
    pub dialect: Dialect,
    /// The identifier in the header of its requests. Before SessionSetup is accepted, that of the session to come back to.
    pub session: SessionId,
    /// The charging replies so far.
    pub cycles: u32,
}

/// The identifier that SessionSetup has in its header: this one, and eight zero bytes where it has no bytes.
fn named_by(session: &SessionId) -> SessionId
    ensures { result ≡ rule.named_by session.now.bytes.items }
{
    if session.bytes.is_empty() {
        SessionId::zero()
    } else {
        session.copied()
    }
}

impl CarStage {
    /// The stage behind a negotiation that chose this dialect.
    pub fn new(plan: &CarPlan, dialect: Dialect) -> CarStage
        ensures { result ≡ rule.first_stage plan.now dialect }
    {
        CarStage {
            phase: CarPhase::SettingUp,
            dialect,
            session: named_by(&plan.session),
            cycles: 0,
        }
    }
}
