//! What is judged of a request.

ghost use Rattle.std.specs.Prelude.{◌≡◌, ◌≤◌, None, true, false};
ghost use Rattle.session_words.specs.declared.plan.PostPlan.{PostPlan};
ghost use Rattle.session_words.specs.declared.word.Request.{Request};
ghost use Rattle.audit_rows.specs.declared.judging.PostValues.{PostValues};
ghost use Rattle.session_words.specs.declared.phase.Phase.{Phase};
ghost use Rattle.session_rules.specs.Finishing as finishing;
ghost use Rattle.session_rules.specs.Lines.{first_line};
ghost use Rattle.session_rules.specs.Rows.{accepts};
ghost use Rattle.session_rules.specs.Stages as stages;
ghost use Rattle.session_rules.specs.Verdict as rule;
ghost use Rattle.session_words.specs.declared.phase.Phase.TheVariants as row;
ghost use Rattle.audit_rows.specs.Rows.{number_of};
ghost use Rattle.session_rules.specs.Moves.{next_row};
ghost use Rattle.audit_rows.specs.Values.{stage_of, IsJudged};

use crate::codes::{cable_code, delivery_code, parameters_code, pre_charge_code, selection_code};
use crate::rows::{lead_in, row_of};
use charge_world::{Dialect, IsolationLevel};
use session_rules::{is_ac, is_accepted, is_set_up};
use session_words::{Ask, Code, Facts, Phase, PostPlan, Request, SessionId};

/// What whoever judges a record keeps of a session.
#[derive(Drop)]
pub struct PostValues {
    /// The row, counted from 1: 1 is the connection, 2 the negotiation, .., 16 the end of charging in alternating current.
    pub row: u8,
    pub dialect: Dialect,
    /// The identifier of the session: before SessionSetup is accepted, the one that the connection's token gives.
    pub session: SessionId,
    pub facts: Facts,
    /// The target of the last PreCharge, in tenths of a volt.
    pub last_target: u32,
    /// The voltage of the reply to it, in tenths of a volt.
    pub last_voltage: u32,
    /// The power of the last schedule, in watts.
    pub schedule: u32,
    /// The watts that the request is shown where it is accepted.
    pub shown: u32,
}

/// The verdict on a request.
#[derive(Clone, Copy, PartialEq, Eq)]
pub struct Judged {
    pub code: Code,
    /// The row behind it: 10 or 14 where the contactor closes first, 0 where the session ends.
    pub next: u8,
}

/// The code of the first line that applies, of a request that its row takes.
fn content_code(values: &PostValues, row: Phase, plan: &PostPlan, ask: &Ask) -> Option<Code>
    ensures { result ≡ first_line (rule.content_lines (stage_of row values.now) values.now.facts plan.now ask.now) None }
{
    match ask {
        Ask::PaymentSelection { external, services } => {
            selection_code(*external, services.as_slice())
        }
        Ask::ServiceDetail { service } => {
            if *service == 1 {
                None
            } else {
                Some(Code::FailedServiceIdInvalid)
            }
        }
        Ask::ChargeParameters { mode, limits } => {
            parameters_code(values.dialect, plan, *mode, limits)
        }
        Ask::CableCheck { .. } => cable_code(&values.facts),
        Ask::PreCharge {
            voltage,
            current,
            ..
        } => pre_charge_code(plan, *voltage, *current),
        Ask::CurrentDemand {
            voltage,
            current,
            ..
        } => {
            if voltage.right && current.right {
                None
            } else {
                Some(Code::Failed)
            }
        }
        Ask::PowerDelivery {
            progress,
            tuple,
            profile,
        } => delivery_code(values, row, *progress, *tuple, *profile),
        Ask::SessionStop { pause } => {
            if *pause && row != Phase::DcStopped && row != Phase::AcStopped {
                Some(Code::Failed)
            } else {
                None
            }
        }
        Ask::SessionSetup { .. }
        | Ask::ServiceDiscovery
        | Ask::Authorization
        | Ask::ChargingStatus
        | Ask::WeldingDetection { .. } => None,
    }
}

/// Whether both identifiers are the same bytes.
fn is_same(a: &SessionId, b: &SessionId) -> bool
    ensures { result ≡ stages.is_same a.now b.now }
{
    a.bytes.as_slice() == b.bytes.as_slice()
}

/// The code of an accepted request: SessionSetup opens a session, or in ISO joins the paused one that it names.
fn good_code(values: &PostValues, request: &Request) -> Code
    ensures { result ≡ rule.accepting_code (stage_of row.SetUp values.now) values.now.facts request.now.session request.now.ask }
{
    let Ask::SessionSetup { .. } = request.ask else {
        return Code::Ok;
    };
    match (&values.facts.kept, values.dialect) {
        (Some(kept), Dialect::Iso) if is_same(&request.session, kept) => Code::OkOldSessionJoined,
        _ => Code::OkNewSessionEstablished,
    }
}

/// Whether the reply to an accepted request says Finished.
fn is_finished(values: &PostValues, plan: &PostPlan, ask: &Ask) -> bool
    ensures { result ≡ finishing.is_finished values.now.facts plan.now ask.now values.now.shown }
{
    match ask {
        Ask::Authorization => plan.free || values.facts.paid || values.facts.joined,
        Ask::ChargeParameters { .. } => values.shown > 0,
        Ask::CableCheck { .. } => values.facts.isolation == Some(IsolationLevel::Valid),
        _ => true,
    }
}

/// The code by which the post answers the request, and the row behind it (ISO 15118-2:2014, 8.8.3 and 8.8.4; DIN SPEC 70121:2014). The row is
/// one in which a request may come: 2 to 9, 11 to 13, 15 or 16.
pub fn judge(values: &PostValues, plan: &PostPlan, request: &Request) -> Judged
    requires some { 2 ≤ values.now.row }
    requires most { values.now.row ≤ 16 }
    ensures { (row : Phase) → number_of row ≡ values.now.row → IsJudged row values.now plan.now request.now result }
{
    judge_in(row_of(values.row), values, plan, request)
}

/// The code of the first line that applies, of all lines in their order; `taken` says that the row takes the request.
fn code_of(values: &PostValues, row: Phase, taken: bool, plan: &PostPlan, request: &Request) -> Code
    requires { taken ≡ accepts values.now.dialect row request.now.ask }
    ensures code { result ≡ rule.verdict (stage_of row values.now) values.now.facts plan.now request.now }
    ensures refused { taken ≡ false → rule.is_accepted result ≡ false }
{
    if is_set_up(row) && !is_same(&request.session, &values.session) {
        return Code::FailedUnknownSession;
    }
    if !taken {
        return Code::FailedSequenceError;
    }
    match content_code(values, row, plan, &request.ask) {
        Some(code) => code,
        None => good_code(values, request),
    }
}

/// The same in any row, whatever the values say of it.
pub fn judge_in(row: Phase, values: &PostValues, plan: &PostPlan, request: &Request) -> Judged
    ensures { IsJudged row values.now plan.now request.now result }
{
    let lead = lead_in(row, values.dialect, &request.ask, is_ac(plan.mode));
    let code = code_of(values, row, lead.is_some(), plan, request);
    let next = match lead {
        Some(lead) if is_accepted(code) => lead.behind(is_finished(values, plan, &request.ask)),
        _ => 0,
    };
    Judged { code, next }
}

impl Judged {
    /// The row behind an accepted request that was judged in this one. Where the session ends, it stays.
    pub fn row_behind(&self, row: Phase) -> Phase
        ensures { (values : PostValues) (plan : PostPlan) (request : Request) → IsJudged row values plan request self.now → rule.is_accepted self.now.code ≡ true
            → result ≡ next_row (stage_of row values) values.facts plan request.ask values.shown }
    {
        if self.next == 0 {
            row
        } else {
            row_of(self.next)
        }
    }
}
