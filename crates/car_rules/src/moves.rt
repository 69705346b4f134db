//! What an accepted reply leads to.

ghost use Rattle.std.specs.Prelude.{◌≡◌, ◌<◌};
ghost use Rattle.post_spec.specs.Kinds.{says_finished as finished};
ghost use Rattle.car_rules.specs.Moves as rule;

use crate::stage::{CarPhase, CarStage};
use charge_world::{Dialect, Order, Tenths};
use session_rules::is_ac;
use session_words::{Amount, CarPlan, Mode, Notify, Processing, Reply, SessionId, Tell};

/// Whether the reply says Finished.
pub fn says_finished(tell: &Tell) -> bool
    ensures { result ≡ finished tell.now }
{
    match tell {
        Tell::Authorization { processing } | Tell::CableCheck { processing, .. } => {
            matches!(processing, Processing::Finished)
        }
        Tell::ChargeParameters { processing, .. } => matches!(processing, Processing::Finished),
        _ => false,
    }
}

/// Whether this is within 20.0 V of the target, whatever unit the reply says.
fn is_near(target: Tenths, voltage: Amount) -> bool
    ensures { result ≡ rule.is_near target voltage }
{
    let target = u32::from(target.get());
    voltage.size.abs_diff(target) <= 200
}

/// Whether the pre-charge is done.
pub fn is_pre_charged(target: Tenths, tell: &Tell) -> bool
    ensures { result ≡ rule.is_pre_charged target tell.now }
{
    match tell {
        Tell::PreCharge { voltage, .. } => is_near(target, *voltage),
        _ => false,
    }
}

/// What a charging reply asks of the car.
fn notify_in(tell: &Tell) -> Notify
    ensures { result ≡ rule.notify_in tell.now }
{
    match tell {
        Tell::CurrentDemand { status, .. } => status.notify,
        Tell::ChargingStatus { notify, .. } => *notify,
        _ => Notify::None,
    }
}

/// Whether charging stops with this reply. `stop` says that somebody asked for it.
fn stops(plan: &CarPlan, cycles: u32, stop: bool, tell: &Tell) -> bool
    requires { cycles < 4294967295 }
    ensures { result ≡ rule.stops plan.now cycles stop tell.now }
{
    plan.cycles <= cycles + 1 || stop || matches!(notify_in(tell), Notify::StopCharging)
}

/// Whether the post asks to negotiate anew.
fn renews(dialect: Dialect, tell: &Tell) -> bool
    ensures { result ≡ rule.renews dialect tell.now }
{
    matches!(
        (dialect, notify_in(tell)),
        (Dialect::Iso, Notify::ReNegotiation)
    )
}

/// The phase in which so many welding detections are to come.
fn welding_phase(n: u8) -> CarPhase
    ensures { result ≡ rule.welding_phase n }
{
    if n == 0 {
        CarPhase::Ending
    } else {
        CarPhase::Welding { left: n - 1 }
    }
}

/// The phase behind the charge parameters.
fn first_power_phase(mode: Mode) -> CarPhase
    ensures { result ≡ rule.first_power_phase mode }
{
    if is_ac(mode) {
        CarPhase::Starting
    } else {
        CarPhase::CableChecking
    }
}

/// The phase to which a charging reply leads.
fn charging_leads(dialect: Dialect, tell: &Tell, stopping: bool) -> CarPhase
    ensures { result ≡ rule.charging_leads dialect tell.now stopping }
{
    if stopping {
        CarPhase::Stopping
    } else if renews(dialect, tell) {
        CarPhase::Renegotiating
    } else {
        CarPhase::Charging
    }
}

/// The phase behind PowerDelivery Stop.
fn phase_behind_stop(plan: &CarPlan) -> CarPhase
    ensures { result ≡ rule.phase_behind_stop plan.now }
{
    if is_ac(plan.mode) {
        CarPhase::Ending
    } else {
        welding_phase(plan.welding)
    }
}

/// A step that is asked for until it is done.
fn until_done(done: bool, next: CarPhase, again: CarPhase) -> CarPhase
    ensures { result ≡ rule.until_done done next again }
{
    if done { next } else { again }
}

/// The phase to which an accepted reply leads. `stopping` says that charging stops with it.
fn leads(plan: &CarPlan, dialect: Dialect, phase: CarPhase, tell: &Tell, stopping: bool) -> CarPhase
    ensures { result ≡ rule.leads plan.now dialect phase tell.now stopping }
{
    match phase {
        CarPhase::SettingUp => CarPhase::Discovering,
        CarPhase::Discovering => CarPhase::Selecting,
        CarPhase::Selecting => CarPhase::Authorizing,
        CarPhase::Authorizing => until_done(says_finished(tell), CarPhase::Asking, phase),
        CarPhase::Asking => until_done(says_finished(tell), first_power_phase(plan.mode), phase),
        CarPhase::CableChecking => until_done(says_finished(tell), CarPhase::PreCharging, phase),
        CarPhase::PreCharging => until_done(
            is_pre_charged(plan.target_voltage, tell),
            CarPhase::Starting,
            phase,
        ),
        CarPhase::Starting => CarPhase::Charging,
        CarPhase::Charging => charging_leads(dialect, tell, stopping),
        CarPhase::Stopping => phase_behind_stop(plan),
        CarPhase::Renegotiating => CarPhase::Asking,
        CarPhase::Welding { left } => welding_phase(left),
        CarPhase::Ending => CarPhase::Ending,
    }
}

/// Whether the request is asked once more, which waits for the car's pace.
pub fn is_again(phase: CarPhase, next: CarPhase) -> bool
    ensures { result ≡ rule.is_again phase next }
{
    match phase {
        CarPhase::Authorizing => matches!(next, CarPhase::Authorizing),
        CarPhase::Asking => matches!(next, CarPhase::Asking),
        CarPhase::CableChecking => matches!(next, CarPhase::CableChecking),
        CarPhase::PreCharging => matches!(next, CarPhase::PreCharging),
        CarPhase::Charging => matches!(next, CarPhase::Charging),
        _ => false,
    }
}

/// The order that an accepted reply gives before the next request.
pub fn order_of(plan: &CarPlan, phase: CarPhase, tell: &Tell) -> Option<Order>
    ensures { result ≡ rule.order_of plan.now phase tell.now }
{
    match phase {
        CarPhase::PreCharging => {
            is_pre_charged(plan.target_voltage, tell).then_some(Order::Close)
        }
        CarPhase::Starting => is_ac(plan.mode).then_some(Order::Close),
        CarPhase::Stopping | CarPhase::Renegotiating => Some(Order::Open),
        _ => None,
    }
}

/// The charging replies behind one more reply.
fn cycles_behind(phase: CarPhase, cycles: u32) -> u32
    requires { cycles < 4294967295 }
    ensures { result ≡ rule.cycles_behind phase cycles }
{
    match phase {
        CarPhase::Charging => cycles + 1,
        _ => cycles,
    }
}

/// The identifier of the session behind a reply.
fn session_behind(phase: CarPhase, own: &SessionId, given: &SessionId) -> SessionId
    ensures { result ≡ rule.session_behind phase own.now given.now }
{
    match phase {
        CarPhase::SettingUp => given.copied(),
        _ => own.copied(),
    }
}

/// The stage behind an accepted reply. `stop` says that somebody asked to stop since the connection came.
pub fn stage_behind(plan: &CarPlan, stage: &CarStage, reply: &Reply, stop: bool) -> CarStage
    requires { stage.now.cycles < 4294967295 }
    ensures { result ≡ rule.stage_behind plan.now stage.now reply.now stop }
{
    let stopping = stops(plan, stage.cycles, stop, &reply.tell);
    CarStage {
        phase: leads(plan, stage.dialect, stage.phase, &reply.tell, stopping),
        dialect: stage.dialect,
        session: session_behind(stage.phase, &stage.session, &reply.session),
        cycles: cycles_behind(stage.phase, stage.cycles),
    }
}
