//! The deadlines of a car.

ghost use Rattle.std.specs.Prelude.{◌≡◌};
ghost use Rattle.car_rules.specs.Deadlines as rule;

use crate::requests::ask_of;
use crate::stage::{CarPhase, CarStage};
use session_words::{Ask, CarPlan, EndCause};

/// A deadline: when it is reached, and the cause that it then is.
#[derive(Clone, Copy)]
pub struct CarDue {
    pub cause: EndCause,
    pub moment: u64,
}

/// The moments from which the deadlines of a session count.
#[derive(Clone, Copy)]
pub struct CarMoments {
    /// When the connection came.
    pub came: u64,
    /// When the request was sent that has no reply yet, if there is one.
    pub sent: Option<u64>,
    /// When the first request of the present phase was sent.
    pub begun: u64,
}

/// So many milliseconds behind a moment; none where that is past 2^64 - 1.
pub fn due_at(at: u64, span: u64) -> Option<u64>
    ensures { result ≡ rule.due_at at span }
{
    at.checked_add(span)
}

/// Whether the moment is reached.
pub fn is_reached(moment: u64, now: u64) -> bool
    ensures { result ≡ rule.is_reached moment now }
{
    moment <= now
}

/// A deadline so many milliseconds behind a moment; none where that is past 2^64 - 1.
pub(crate) fn due(cause: EndCause, at: u64, span: u64) -> Option<CarDue>
    ensures { result ≡ rule.due cause at span }
{
    due_at(at, span).map(|moment| CarDue { cause, moment })
}

/// How long the reply to this request may take.
fn message_span(ask: &Ask) -> u64
    ensures { result ≡ rule.message_span ask.now }
{
    match ask {
        Ask::PowerDelivery { .. } => 5_000,
        Ask::CurrentDemand { .. } => 250,
        _ => 2_000,
    }
}

/// How long the reply may take that the car awaits.
fn span_in(plan: &CarPlan, stage: &Option<CarStage>) -> u64
    ensures { result ≡ rule.span_in plan.now stage.now }
{
    match stage {
        Some(stage) => message_span(&ask_of(plan, stage.dialect, stage.phase)),
        None => 2_000,
    }
}

/// Whether SessionSetup has no reply yet.
fn awaits_setup(stage: &Option<CarStage>) -> bool
    ensures { result ≡ rule.awaits_setup stage.now }
{
    match stage {
        Some(stage) => matches!(stage.phase, CarPhase::SettingUp),
        None => true,
    }
}

/// The deadline of SessionSetup.
fn setup_due(stage: &Option<CarStage>, came: u64) -> Option<CarDue>
    ensures { result ≡ rule.setup_due stage.now came }
{
    if awaits_setup(stage) {
        due(EndCause::SetupTimeout, came, 20_000)
    } else {
        None
    }
}

/// The deadline of the reply that the car awaits.
fn message_due(plan: &CarPlan, stage: &Option<CarStage>, sent: Option<u64>) -> Option<CarDue>
    ensures { result ≡ rule.message_due plan.now stage.now sent }
{
    match sent {
        Some(sent) => due(EndCause::MessageTimeout, sent, span_in(plan, stage)),
        None => None,
    }
}

/// The deadline of a phase whose request is asked for until it is done.
fn step_due_in(phase: CarPhase, begun: u64) -> Option<CarDue>
    ensures { result ≡ rule.step_due_in phase begun }
{
    match phase {
        CarPhase::Authorizing | CarPhase::Asking => due(EndCause::OngoingTimeout, begun, 60_000),
        CarPhase::CableChecking => due(EndCause::CableCheckTimeout, begun, 40_000),
        CarPhase::PreCharging => due(EndCause::PreChargeTimeout, begun, 7_000),
        _ => None,
    }
}

/// The deadline of a step that is asked for until it is done.
fn step_due(stage: &Option<CarStage>, begun: u64) -> Option<CarDue>
    ensures { result ≡ rule.step_due stage.now begun }
{
    match stage {
        Some(stage) => step_due_in(stage.phase, begun),
        None => None,
    }
}

/// The cause of a deadline that is reached, else the cause of those behind it.
pub fn hit_by(due: Option<CarDue>, now: u64, later: Option<EndCause>) -> Option<EndCause>
    ensures { result ≡ rule.hit_by due now later }
{
    match due {
        Some(due) if is_reached(due.moment, now) => Some(due.cause),
        _ => later,
    }
}

/// The moment of a deadline; 2^64 - 1 where none runs.
pub fn moment_of(due: Option<CarDue>) -> u64
    ensures { result ≡ rule.moment_of due }
{
    match due {
        Some(due) => due.moment,
        None => u64::MAX,
    }
}

/// The cause of the deadline that is reached, if one is; of several the one with the least number.
pub fn hit(
    plan: &CarPlan,
    stage: &Option<CarStage>,
    moments: &CarMoments,
    now: u64,
) -> Option<EndCause>
    ensures { result ≡ rule.hit (rule.deadlines plan.now stage.now moments.now) now }
{
    let step = hit_by(step_due(stage, moments.begun), now, None);
    let message = hit_by(message_due(plan, stage, moments.sent), now, step);
    hit_by(setup_due(stage, moments.came), now, message)
}

/// The moment of the next deadline of a session; 2^64 - 1 where none runs.
pub fn next_due(plan: &CarPlan, stage: &Option<CarStage>, moments: &CarMoments) -> u64
    ensures { result ≡ rule.least_moment (rule.deadlines plan.now stage.now moments.now) }
{
    let setup = moment_of(setup_due(stage, moments.came));
    let message = moment_of(message_due(plan, stage, moments.sent));
    let step = moment_of(step_due(stage, moments.begun));
    setup.min(message.min(step))
}
