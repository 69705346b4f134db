//! The code of a reply.

ghost use Rattle.std.specs.Prelude.{◌≡◌, ◌↔◌, IsTrue, None};
ghost use Rattle.session_words.specs.Codes.{IsOkClass};
ghost use Rattle.session_rules.specs.Lines.{first_line};
ghost use Rattle.session_rules.specs.Verdict as rule;

use crate::delivery::delivery_fault;
use crate::parameters::parameter_fault;
use crate::rows::accepts;
use crate::stage::{Stage, is_same, is_set_up};
use charge_world::{Dialect, IsolationLevel};
use contactor::is_ready;
use session_words::{Amount, Ask, Code, Facts, Phase, PostPlan, Request, SessionId};

/// Whether the header names another session than the one that is set up.
fn is_misnamed(stage: &Stage, named: &SessionId) -> bool
    ensures { result ≡ rule.is_misnamed stage.now named.now }
{
    is_set_up(stage.row) && !is_same(named, &stage.session)
}

/// Whether the isolation was found broken.
fn is_broken(level: Option<IsolationLevel>) -> bool
    ensures { result ≡ rule.is_broken level }
{
    matches!(
        level,
        Some(IsolationLevel::Warning | IsolationLevel::Fault | IsolationLevel::NoImd)
    )
}

/// Whether the row is one behind PowerDelivery Stop.
fn is_stopped(row: Phase) -> bool
    ensures { result ≡ rule.is_stopped row }
{
    matches!(row, Phase::DcStopped | Phase::AcStopped)
}

/// Whether a service other than 1 is among these.
fn has_other_service(services: &[u16]) -> bool
    ensures { result ≡ rule.has_other_service services.now }
{
    services.iter().any(|service| *service != 1)
}

/// The code where payment or services can't be selected so.
fn selection_fault(external: bool, services: &[u16]) -> Option<Code>
    ensures { result ≡ first_line (rule.selection_lines external services.now) None }
{
    if !external {
        return Some(Code::FailedPaymentSelectionInvalid);
    }
    if has_other_service(services) {
        return Some(Code::FailedServiceSelectionInvalid);
    }
    None
}

/// The code where a CableCheck can't be done.
fn cable_fault(facts: &Facts) -> Option<Code>
    ensures { result ≡ first_line (rule.cable_lines facts.now) None }
{
    (!is_ready(facts.pilot) || is_broken(facts.isolation)).then_some(Code::Failed)
}

/// The code where the targets of PreCharge have a wrong unit or are too high.
fn pre_charge_fault(plan: &PostPlan, voltage: Amount, current: Amount) -> Option<Code>
    ensures { result ≡ first_line (rule.pre_charge_lines plan.now voltage current) None }
{
    let high = u32::from(plan.max_voltage.get()) < voltage.size;
    (!(voltage.right && current.right) || high).then_some(Code::Failed)
}

/// The code of the first line that refuses what the request asks, where its row takes it.
fn content_fault(stage: &Stage, facts: &Facts, plan: &PostPlan, ask: &Ask) -> Option<Code>
    ensures { result ≡ first_line (rule.content_lines stage.now facts.now plan.now ask.now) None }
{
    match ask {
        Ask::PaymentSelection { external, services } => {
            selection_fault(*external, services.as_slice())
        }
        Ask::ServiceDetail { service } => (*service != 1).then_some(Code::FailedServiceIdInvalid),
        Ask::ChargeParameters { mode, limits } => {
            parameter_fault(stage.dialect, plan, *mode, limits)
        }
        Ask::CableCheck { .. } => cable_fault(facts),
        Ask::PreCharge {
            voltage,
            current,
            ..
        } => pre_charge_fault(plan, *voltage, *current),
        Ask::CurrentDemand {
            voltage,
            current,
            ..
        } => (!(voltage.right && current.right)).then_some(Code::Failed),
        Ask::PowerDelivery {
            progress,
            tuple,
            profile,
        } => delivery_fault(stage, facts, *progress, *tuple, *profile),
        Ask::SessionStop { pause } => { (*pause && !is_stopped(stage.row)).then_some(Code::Failed) }
        Ask::SessionSetup { .. }
        | Ask::ServiceDiscovery
        | Ask::Authorization
        | Ask::ChargingStatus
        | Ask::WeldingDetection { .. } => None,
    }
}

/// Whether SessionSetup with this identifier in its header joins the paused session.
pub fn joins(dialect: Dialect, facts: &Facts, named: &SessionId) -> bool
    ensures { result ≡ rule.joins dialect facts.now named.now }
{
    match (dialect, &facts.kept) {
        (Dialect::Iso, Some(kept)) => is_same(named, kept),
        _ => false,
    }
}

/// The code of an accepted request.
fn accepting_code(stage: &Stage, facts: &Facts, request: &Request) -> Code
    ensures { result ≡ rule.accepting_code stage.now facts.now request.now.session request.now.ask }
{
    match request.ask {
        Ask::SessionSetup { .. } => {
            if joins(stage.dialect, facts, &request.session) {
                Code::OkOldSessionJoined
            } else {
                Code::OkNewSessionEstablished
            }
        }
        _ => Code::Ok,
    }
}

/// The FAILED code of a request that isn't accepted.
fn refusal(stage: &Stage, facts: &Facts, plan: &PostPlan, request: &Request) -> Option<Code>
    ensures { result ≡ rule.refusal stage.now facts.now plan.now request.now }
{
    if is_misnamed(stage, &request.session) {
        return Some(Code::FailedUnknownSession);
    }
    if !accepts(stage.dialect, stage.row, &request.ask) {
        return Some(Code::FailedSequenceError);
    }
    content_fault(stage, facts, plan, &request.ask)
}

/// The code by which a post of this plan answers the request, where its session stands so and it knows these facts.
pub fn judge(stage: &Stage, facts: &Facts, plan: &PostPlan, request: &Request) -> Code
    ensures { result ≡ rule.verdict stage.now facts.now plan.now request.now }
{
    match refusal(stage, facts, plan, request) {
        Some(code) => code,
        None => accepting_code(stage, facts, request),
    }
}

/// Whether a request with this code is accepted.
pub fn is_accepted(code: Code) -> bool
    ensures value { result ≡ rule.is_accepted code }
    ensures class { IsTrue result ↔ IsOkClass code }
{
    code.is_ok()
}
