//! What a session keeps behind a request.

ghost use Rattle.std.specs.Prelude.{◌≡◌};
ghost use Rattle.session_rules.specs.Moves as rule;
ghost use Rattle.session_rules.specs.Verdict.{verdict};

use crate::asking::shows_watts;
use crate::finishing::{is_ac, is_finished};
use crate::offers::p_max_of;
use crate::rows::leads;
use crate::stage::{PreCharged, Stage};
use crate::verdict::{is_accepted, joins};
use session_words::{Ask, Code, Facts, Phase, PostPlan, Progress, Request, SessionId};

/// The row behind this request, where it is accepted.
pub fn next_row(stage: &Stage, facts: &Facts, plan: &PostPlan, ask: &Ask, shown: u32) -> Phase
    ensures { result ≡ rule.next_row stage.now facts.now plan.now ask.now shown }
{
    let finished = is_finished(facts, plan, ask, shown);
    match leads(stage.row, ask, finished, is_ac(plan.mode)) {
        Some(row) => row,
        None => stage.row,
    }
}

/// The session's identifier behind this request, where it is accepted.
fn next_session(stage: &Stage, facts: &Facts, request: &Request) -> SessionId
    ensures { result ≡ rule.next_session stage.now facts.now request.now }
{
    match request.ask {
        Ask::SessionSetup { .. } if joins(stage.dialect, facts, &request.session) => {
            request.session.copied()
        }
        _ => stage.session.copied(),
    }
}

/// The watts of the last schedule behind this request, where it is accepted.
fn next_schedule(stage: &Stage, ask: &Ask, shown: u32) -> u32
    ensures { result ≡ rule.next_schedule stage.now ask.now shown }
{
    match ask {
        Ask::ChargeParameters { .. } if 0 < shown => p_max_of(stage.dialect, shown),
        _ => stage.schedule,
    }
}

/// The last pre-charge behind this request, where it is accepted.
fn next_pre_charge(stage: &Stage, facts: &Facts, ask: &Ask) -> Option<PreCharged>
    ensures { result ≡ rule.next_pre_charge stage.now facts.now ask.now }
{
    match ask {
        Ask::PreCharge { voltage, .. } => Some(PreCharged {
            target: voltage.size,
            voltage: facts.voltage,
        }),
        _ => stage.pre_charge,
    }
}

/// The stage behind this request, where it is accepted.
pub(crate) fn moved(
    stage: &Stage,
    facts: &Facts,
    plan: &PostPlan,
    request: &Request,
    shown: u32,
) -> Stage
    ensures { result ≡ rule.moved stage.now facts.now plan.now request.now shown }
{
    Stage {
        row: next_row(stage, facts, plan, &request.ask, shown),
        dialect: stage.dialect,
        session: next_session(stage, facts, request),
        told: if shows_watts(&request.ask) {
            shown
        } else {
            stage.told
        },
        schedule: next_schedule(stage, &request.ask, shown),
        pre_charge: next_pre_charge(stage, facts, &request.ask),
    }
}

/// The stage behind a request that was judged so, where these watts are shown. One that isn't accepted leaves it.
pub fn stage_behind(
    stage: Stage,
    facts: &Facts,
    plan: &PostPlan,
    request: &Request,
    code: Code,
    shown: u32,
) -> Stage
    requires { code ≡ verdict stage facts.now plan.now request.now }
    ensures { result ≡ rule.stage_behind stage facts.now plan.now request.now shown }
{
    if is_accepted(code) {
        moved(&stage, facts, plan, request, shown)
    } else {
        stage
    }
}

/// The facts behind a request that was judged so. One that isn't accepted leaves them.
pub fn facts_behind(
    facts: Facts,
    stage: &Stage,
    plan: &PostPlan,
    request: &Request,
    code: Code,
) -> Facts
    requires { code ≡ verdict stage.now facts plan.now request.now }
    ensures { result ≡ rule.facts_behind stage.now facts plan.now request.now }
{
    if !is_accepted(code) {
        return facts;
    }
    match request.ask {
        Ask::SessionSetup { .. } => {
            let joined = joins(stage.dialect, &facts, &request.session);
            Facts {
                kept: None,
                joined,
                ..facts
            }
        }
        Ask::PowerDelivery {
            progress: Progress::Renegotiate,
            ..
        } => Facts {
            renew: false,
            ..facts
        },
        _ => facts,
    }
}
