//! The requests of a car.

ghost use Rattle.std.specs.Prelude.{◌≡◌, ◌∷◌, [], None};
ghost use Rattle.session_words.specs.declared.word.Ask.TheVariants as ask;
ghost use Rattle.session_rules.specs.Offers.{amount};
ghost use Rattle.car_rules.specs.Requests as rule;

use crate::stage::{CarPhase, CarStage};
use arrayvec::ArrayVec;
use charge_world::{Dialect, Tenths};
use session_rules::is_ac;
use session_words::{Amount, Ask, CarLimits, CarPlan, Progress, Request, Stop};

/// A voltage or a current in the unit that its place wants.
fn amount_of(tenths: Tenths) -> Amount
    ensures { result ≡ amount tenths }
{
    Amount {
        size: u32::from(tenths.get()),
        right: true,
    }
}

/// What the car can take.
fn limits_of(plan: &CarPlan) -> CarLimits
    ensures { result ≡ rule.limits_of plan.now }
{
    if is_ac(plan.mode) {
        CarLimits::Ac {
            most_current: amount_of(plan.max_current),
            least_current: amount_of(plan.min_current),
            most_voltage: amount_of(plan.max_voltage),
        }
    } else {
        CarLimits::Dc {
            ready: false,
            soc: plan.soc,
            current: amount_of(plan.max_current),
            watts: Some(Amount {
                size: plan.max_watts,
                right: true,
            }),
            voltage: amount_of(plan.max_voltage),
        }
    }
}

/// The schedule that is taken, as PowerDelivery names it.
fn tuple_of(dialect: Dialect) -> Option<i16>
    ensures { result ≡ rule.tuple_of dialect }
{
    match dialect {
        Dialect::Iso => Some(1),
        Dialect::Din => None,
    }
}

/// PowerDelivery.
fn delivery(dialect: Dialect, progress: Progress) -> Ask
    ensures { result ≡ ask.PowerDelivery progress (rule.tuple_of dialect) None }
{
    Ask::PowerDelivery {
        progress,
        tuple: tuple_of(dialect),
        profile: None,
    }
}

/// What is asked while the car charges.
fn charging_ask(plan: &CarPlan) -> Ask
    ensures { result ≡ rule.charging_ask plan.now }
{
    if is_ac(plan.mode) {
        Ask::ChargingStatus
    } else {
        Ask::CurrentDemand {
            ready: true,
            soc: plan.soc,
            voltage: amount_of(plan.target_voltage),
            current: amount_of(plan.target_current),
        }
    }
}

/// Whether the car ends its session by a pause.
pub fn pauses(plan: &CarPlan, dialect: Dialect) -> bool
    ensures { result ≡ rule.pauses plan.now dialect }
{
    matches!((dialect, plan.stop), (Dialect::Iso, Stop::Pause))
}

/// The one service that is selected: charging.
fn services() -> ArrayVec<u16, 16>
    ensures { result.items ≡ 1 ∷ [] }
{
    let mut services = ArrayVec::new();
    services.push(1);
    services
}

/// The EVCCID of six bytes.
fn car_of(id: [u8; 6]) -> ArrayVec<u8, 8>
    ensures { result.items ≡ id }
{
    ArrayVec::try_from(id.as_slice()).unwrap()
}

/// What is asked in a phase.
pub fn ask_of(plan: &CarPlan, dialect: Dialect, phase: CarPhase) -> Ask
    ensures { result ≡ rule.ask_of plan.now dialect phase }
{
    match phase {
        CarPhase::SettingUp => Ask::SessionSetup {
            car: car_of(plan.car_id),
        },
        CarPhase::Discovering => Ask::ServiceDiscovery,
        CarPhase::Selecting => Ask::PaymentSelection {
            external: true,
            services: services(),
        },
        CarPhase::Authorizing => Ask::Authorization,
        CarPhase::Asking => Ask::ChargeParameters {
            mode: plan.mode,
            limits: limits_of(plan),
        },
        CarPhase::CableChecking => Ask::CableCheck {
            ready: true,
            soc: plan.soc,
        },
        CarPhase::PreCharging => Ask::PreCharge {
            ready: true,
            soc: plan.soc,
            voltage: amount_of(plan.target_voltage),
            current: amount_of(plan.target_current),
        },
        CarPhase::Starting => delivery(dialect, Progress::Start),
        CarPhase::Charging => charging_ask(plan),
        CarPhase::Stopping => delivery(dialect, Progress::Stop),
        CarPhase::Renegotiating => delivery(dialect, Progress::Renegotiate),
        CarPhase::Welding { .. } => Ask::WeldingDetection {
            ready: true,
            soc: plan.soc,
        },
        CarPhase::Ending => Ask::SessionStop {
            pause: pauses(plan, dialect),
        },
    }
}

/// The request of a stage.
pub fn request_of(plan: &CarPlan, stage: &CarStage) -> Request
    ensures { result ≡ rule.request_of plan.now stage.now }
{
    Request {
        session: stage.session.copied(),
        ask: ask_of(plan, stage.dialect, stage.phase),
    }
}
