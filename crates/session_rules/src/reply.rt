//! What a post answers to a request.

ghost use Rattle.std.specs.Prelude.{◌≡◌, if◌then◌else◌, [], ◌∷◌};
ghost use Rattle.session_words.specs.Modes.{offered_of};
ghost use Rattle.session_words.specs.Plans.{IsPostPlan};
ghost use Rattle.session_rules.specs.Verdict.{verdict, is_accepted as accepted_by};
ghost use Rattle.session_rules.specs.Reply as rule;

use crate::finishing::{is_ac, is_finished};
use crate::moves::moved;
use crate::offers::{ac_current_at, amount, amount_of, evse_of, limits_of, schedule_of};
use crate::stage::Stage;
use crate::status::{dc_status, notify_of, post_status};
use crate::verdict::is_accepted;
use arrayvec::ArrayVec;
use charge_world::Dialect;
use session_words::{
    Amount, Ask, Code, EvseId, Facts, Mode, OfferedMode, PostPlan, Processing, Progress, Reply,
    Request, Tell, Tuple, dc_watts,
};

/// Whether a step goes on or is finished. A FAILED one is finished.
fn processing_of(ongoing: Processing, accepted: bool, finished: bool) -> Processing
    ensures { result ≡ rule.processing_of ongoing accepted finished }
{
    if accepted && !finished {
        ongoing
    } else {
        Processing::Finished
    }
}

/// What an authorization says that waits for the customer.
fn awaiting(dialect: Dialect) -> Processing
    ensures { result ≡ rule.awaiting dialect }
{
    match dialect {
        Dialect::Iso => Processing::OngoingWaitingForCustomerInteraction,
        Dialect::Din => Processing::Ongoing,
    }
}

/// The EVSEID, in ISO alone.
fn evse_if_iso(dialect: Dialect, plan: &PostPlan) -> Option<EvseId>
    ensures { result ≡ rule.evse_if_iso dialect plan.now }
{
    match dialect {
        Dialect::Iso => Some(evse_of(Dialect::Iso, plan)),
        Dialect::Din => None,
    }
}

/// The schedule of these watts, where there is one.
fn schedule_if(there: bool, dialect: Dialect, watts: u32) -> Option<ArrayVec<Tuple, 3>>
    ensures { result ≡ rule.schedule_if there dialect watts }
{
    if there {
        schedule_of(dialect, watts)
    } else {
        None
    }
}

/// The one mode of a post.
fn offered(mode: Mode) -> ArrayVec<OfferedMode, 6>
    ensures { result ≡ record { items = offered_of mode ∷ [] } }
{
    let mut modes = ArrayVec::new();
    modes.push(OfferedMode::from(mode));
    modes
}

/// The watts that a reply with this code tells: the shown ones, and where it is FAILED the others.
fn watts_told(code: Code, shown: u32, otherwise: u32) -> u32
    ensures { result ≡ (if accepted_by code then shown else otherwise) }
{
    if is_accepted(code) { shown } else { otherwise }
}

/// What the reply to ChargeParameterDiscovery tells.
fn parameters_told(
    stage: &Stage,
    facts: &Facts,
    plan: &PostPlan,
    code: Code,
    shown: u32,
    ask: &Ask,
) -> Tell
    requires { IsPostPlan plan.now }
    ensures { result ≡ rule.parameters_told stage.now facts.now plan.now code shown ask.now }
{
    let accepted = is_accepted(code);
    Tell::ChargeParameters {
        processing: processing_of(Processing::Ongoing, accepted, 0 < shown),
        schedule: schedule_if(accepted && 0 < shown, stage.dialect, shown),
        limits: limits_of(
            is_ac(plan.mode),
            stage.dialect,
            facts,
            plan,
            code,
            ask,
            watts_told(code, shown, 0),
        ),
    }
}

/// What the reply to CurrentDemand tells.
fn demand_told(
    stage: &Stage,
    facts: &Facts,
    plan: &PostPlan,
    code: Code,
    shown: u32,
    ask: &Ask,
    voltage: Amount,
    current: Amount,
) -> Tell
    ensures { result ≡ rule.demand_told stage.now facts.now plan.now code shown ask.now voltage current }
{
    let accepted = is_accepted(code);
    Tell::CurrentDemand {
        status: dc_status(stage.dialect, facts, code, ask),
        voltage: amount_of(facts.voltage),
        current: amount_of(facts.current),
        current_cut: accepted && u32::from(plan.max_current.get()) < current.size,
        voltage_cut: accepted && u32::from(plan.max_voltage.get()) < voltage.size,
        watts_cut: accepted && u64::from(shown) < dc_watts(voltage.size, current.size),
        most_voltage: Some(amount_of(plan.max_voltage)),
        most_current: Some(amount_of(plan.max_current)),
        most_watts: Some(amount(watts_told(code, shown, stage.told))),
        evse: evse_if_iso(stage.dialect, plan),
    }
}

/// What a reply with this code tells, where these watts are shown.
fn tell_of(stage: &Stage, facts: &Facts, plan: &PostPlan, code: Code, shown: u32, ask: &Ask) -> Tell
    requires { IsPostPlan plan.now }
    ensures { result ≡ rule.tell_of stage.now facts.now plan.now code shown ask.now }
{
    let dialect = stage.dialect;
    match ask {
        Ask::SessionSetup { .. } => Tell::SessionSetup {
            evse: evse_of(dialect, plan),
        },
        Ask::ServiceDiscovery => Tell::ServiceDiscovery {
            free: plan.free,
            modes: offered(plan.mode),
        },
        Ask::ServiceDetail { service } => Tell::ServiceDetail { service: *service },
        Ask::PaymentSelection { .. } => Tell::PaymentSelection,
        Ask::Authorization => Tell::Authorization {
            processing: processing_of(
                awaiting(dialect),
                is_accepted(code),
                is_finished(facts, plan, ask, shown),
            ),
        },
        Ask::ChargeParameters { .. } => parameters_told(stage, facts, plan, code, shown, ask),
        Ask::CableCheck { .. } => Tell::CableCheck {
            status: dc_status(dialect, facts, code, ask),
            processing: processing_of(
                Processing::Ongoing,
                is_accepted(code),
                is_finished(facts, plan, ask, shown),
            ),
        },
        Ask::PreCharge { .. } => Tell::PreCharge {
            status: dc_status(dialect, facts, code, ask),
            voltage: amount_of(facts.voltage),
        },
        Ask::PowerDelivery { .. } => Tell::PowerDelivery {
            status: post_status(is_ac(plan.mode), dialect, facts, code, ask),
        },
        Ask::CurrentDemand {
            voltage,
            current,
            ..
        } => demand_told(stage, facts, plan, code, shown, ask, *voltage, *current),
        Ask::ChargingStatus => Tell::ChargingStatus {
            notify: notify_of(dialect, facts, code, ask),
            evse: evse_of(dialect, plan),
            current: Some(amount_of(ac_current_at(plan, watts_told(code, shown, stage.told)))),
        },
        Ask::WeldingDetection { .. } => Tell::WeldingDetection {
            status: dc_status(dialect, facts, code, ask),
            voltage: amount_of(facts.voltage),
        },
        Ask::SessionStop { .. } => Tell::SessionStop,
    }
}

/// The reply to a request that was judged so, where these watts are shown. That to an accepted PowerDelivery Start waits
/// for the contactor's feedback: `waiting_reply` gives it then.
pub fn reply_to(
    stage: &Stage,
    facts: &Facts,
    plan: &PostPlan,
    request: &Request,
    code: Code,
    shown: u32,
) -> Reply
    requires plan { IsPostPlan plan.now }
    requires judged { code ≡ verdict stage.now facts.now plan.now request.now }
    ensures { result ≡ rule.reply_to stage.now facts.now plan.now request.now shown }
{
    let session = if is_accepted(code) {
        moved(stage, facts, plan, request, shown).identifier()
    } else {
        stage.identifier()
    };
    Reply {
        session,
        code,
        tell: tell_of(stage, facts, plan, code, shown, &request.ask),
    }
}

/// The reply to PowerDelivery Start that waited, with the facts of the moment in which the feedback confirmed the order.
pub fn waiting_reply(stage: &Stage, facts: &Facts, plan: &PostPlan) -> Reply
    ensures { result ≡ rule.waiting_reply stage.now facts.now plan.now }
{
    let ask = Ask::PowerDelivery {
        progress: Progress::Start,
        tuple: None,
        profile: None,
    };
    Reply {
        session: stage.identifier(),
        code: Code::Ok,
        tell: Tell::PowerDelivery {
            status: post_status(is_ac(plan.mode), stage.dialect, facts, Code::Ok, &ask),
        },
    }
}
