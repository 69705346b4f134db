//! What a reply is, and whether it ends the session.

ghost use Rattle.std.specs.Prelude.{◌≡◌};
ghost use Rattle.std.specs.List.{list_any};
ghost use Rattle.session_rules.specs.Stages.{is_same as same_session};
ghost use Rattle.car_rules.specs.Replies as rule;

use crate::requests::{ask_of, pauses};
use crate::stage::{CarPhase, CarStage};
use charge_world::{Dialect, PlantEvent};
use session_rules::is_accepted;
use session_words::{Ask, CarPlan, EndCause, Mode, OfferedMode, Reply, SessionId, Tell};

/// Whether the reply is of the kind of the request.
pub fn answers(ask: &Ask, tell: &Tell) -> bool
    ensures { result ≡ rule.answers ask.now tell.now }
{
    match ask {
        Ask::SessionSetup { .. } => matches!(tell, Tell::SessionSetup { .. }),
        Ask::ServiceDiscovery => matches!(tell, Tell::ServiceDiscovery { .. }),
        Ask::ServiceDetail { .. } => matches!(tell, Tell::ServiceDetail { .. }),
        Ask::PaymentSelection { .. } => matches!(tell, Tell::PaymentSelection),
        Ask::Authorization => matches!(tell, Tell::Authorization { .. }),
        Ask::ChargeParameters { .. } => matches!(tell, Tell::ChargeParameters { .. }),
        Ask::CableCheck { .. } => matches!(tell, Tell::CableCheck { .. }),
        Ask::PreCharge { .. } => matches!(tell, Tell::PreCharge { .. }),
        Ask::PowerDelivery { .. } => matches!(tell, Tell::PowerDelivery { .. }),
        Ask::CurrentDemand { .. } => matches!(tell, Tell::CurrentDemand { .. }),
        Ask::ChargingStatus => matches!(tell, Tell::ChargingStatus { .. }),
        Ask::WeldingDetection { .. } => matches!(tell, Tell::WeldingDetection { .. }),
        Ask::SessionStop { .. } => matches!(tell, Tell::SessionStop),
    }
}

/// Whether both identifiers are the same bytes.
fn is_same(a: &SessionId, b: &SessionId) -> bool
    ensures { result ≡ same_session a.now b.now }
{
    a.bytes.as_slice() == b.bytes.as_slice()
}

/// Whether the reply is of another session.
fn is_misnamed(stage: &CarStage, named: &SessionId) -> bool
    ensures { result ≡ rule.is_misnamed stage.now named.now }
{
    !matches!(stage.phase, CarPhase::SettingUp) && !is_same(named, &stage.session)
}

/// Whether the reply is unasked, of another kind, or of another session.
fn is_wrong(plan: &CarPlan, stage: &CarStage, awaited: bool, reply: &Reply) -> bool
    ensures { result ≡ rule.is_wrong plan.now stage.now awaited reply.now }
{
    !awaited
        || !answers(&ask_of(plan, stage.dialect, stage.phase), &reply.tell)
        || is_misnamed(stage, &reply.session)
}

/// Whether the offered mode is the car's.
fn is_mode(own: Mode, offered: OfferedMode) -> bool
    ensures { result ≡ rule.is_mode own offered }
{
    match own {
        Mode::AcSinglePhaseCore => matches!(offered, OfferedMode::AcSinglePhaseCore),
        Mode::AcThreePhaseCore => matches!(offered, OfferedMode::AcThreePhaseCore),
        Mode::DcCore => matches!(offered, OfferedMode::DcCore),
        Mode::DcExtended => matches!(offered, OfferedMode::DcExtended),
        Mode::DcComboCore => matches!(offered, OfferedMode::DcComboCore),
        Mode::DcUnique => matches!(offered, OfferedMode::DcUnique),
    }
}

/// Whether the car's mode is among these.
fn offers(own: Mode, modes: &[OfferedMode]) -> bool
    ensures { result ≡ list_any (rule.is_mode own) modes.now }
{
    modes.iter().any(|offered| is_mode(own, *offered))
}

/// Whether the post doesn't offer the car's mode.
fn lacks_mode(own: Mode, tell: &Tell) -> bool
    ensures { result ≡ rule.lacks_mode own tell.now }
{
    match tell {
        Tell::ServiceDiscovery { modes, .. } => !offers(own, modes.as_slice()),
        _ => false,
    }
}

/// The cause that an accepted SessionStop is.
fn stop_cause(plan: &CarPlan, dialect: Dialect) -> EndCause
    ensures { result ≡ rule.stop_cause plan.now dialect }
{
    if pauses(plan, dialect) {
        EndCause::Paused
    } else {
        EndCause::Stopped
    }
}

/// The cause that a reply is, if it is one. `awaited` says that the request of the stage was sent and has no reply yet.
pub fn reply_cause(
    plan: &CarPlan,
    stage: &CarStage,
    awaited: bool,
    reply: &Reply,
) -> Option<EndCause>
    ensures { result ≡ rule.reply_cause plan.now stage.now awaited reply.now }
{
    if is_wrong(plan, stage, awaited, reply) {
        return Some(EndCause::WrongReply);
    }
    if !is_accepted(reply.code) {
        return Some(EndCause::CodeFailed);
    }
    if lacks_mode(plan.mode, &reply.tell) {
        return Some(EndCause::NoOffer);
    }
    if matches!(stage.phase, CarPhase::Ending) {
        return Some(stop_cause(plan, stage.dialect));
    }
    None
}

/// The cause that an event of the charger is, if it is one.
pub fn plant_cause(event: &PlantEvent) -> Option<EndCause>
    ensures { result ≡ rule.plant_cause event.now }
{
    match event {
        PlantEvent::Emergency => Some(EndCause::Emergency),
        _ => None,
    }
}
