//! What is judged of a request in a session.

ghost use Rattle.std.specs.Prelude.{◌≡◌, ℕ};
ghost use Rattle.std.specs.Option.{option_map};
ghost use Rattle.session_words.specs.declared.facts.Facts.{Facts};
ghost use Rattle.session_rules.specs.Moves as moves;
ghost use Rattle.session_rules.specs.Offers as offers;
ghost use Rattle.audit_course.specs.Changes.{last_of, values_of, IsVerdict, moved_by};
ghost use Rattle.audit_course.specs.Coming.{found_as};
ghost use Rattle.audit_course.specs.Values.{pre_charge_of, stage_of, talked_of};

use crate::course::{LastPreCharge, TalkValues};
use crate::words::NextWord;
use audit_rows::{PostValues, judge_in};
use charge_world::Dialect;
use session_rules::{Found, asks, found_by, joins, lowered_by, shows_watts};
use session_words::{Ask, Code, Facts, Phase, PostPlan, Request, SessionId};

/// The verdict on a request.
#[derive(Clone, Copy)]
pub(crate) struct Verdict {
    pub(crate) code: Code,
    /// The row behind it, where it is accepted.
    pub(crate) row: Phase,
}

/// The last PreCharge. Where there was none, one that is far off.
fn last_of(pre_charge: Option<LastPreCharge>) -> LastPreCharge
    ensures { pre_charge_of result ≡ last_of (option_map pre_charge_of pre_charge) }
{
    match pre_charge {
        Some(last) => last,
        None => LastPreCharge {
            target: 201,
            voltage: 0,
        },
    }
}

/// The values by which a request is judged.
pub(crate) fn values_of(talk: &TalkValues, facts: Facts, shown: u32) -> PostValues
    ensures { result ≡ values_of (stage_of talk.now) facts shown }
{
    let last = last_of(talk.pre_charge);
    PostValues {
        row: 0,
        dialect: talk.dialect,
        session: talk.session.copied(),
        facts,
        last_target: last.target,
        last_voltage: last.voltage,
        schedule: talk.schedule,
        shown,
    }
}

/// The verdict on a request in a session that has these values.
pub(crate) fn verdict_on(
    talk: &TalkValues,
    values: &PostValues,
    plan: &PostPlan,
    request: &Request,
) -> Verdict
    ensures { (facts : Facts) (shown : ℕ) → values.now ≡ values_of (stage_of talk.now) facts shown → IsVerdict (stage_of talk.now) facts plan.now request.now shown result }
{
    let judged = judge_in(talk.row, values, plan, request);
    Verdict {
        code: judged.code,
        row: judged.row_behind(talk.row),
    }
}

/// The session's identifier behind an accepted request.
fn next_session(talk: &TalkValues, facts: &Facts, request: &Request) -> SessionId
    ensures { result ≡ moves.next_session (stage_of talk.now) facts.now request.now }
{
    match request.ask {
        Ask::SessionSetup { .. } if joins(talk.dialect, facts, &request.session) => {
            request.session.copied()
        }
        _ => talk.session.copied(),
    }
}

/// The watts that a Value of 16 bits with a sign and the least Multiplier spell.
fn spelled_watts(watts: u32) -> u32
    ensures { result ≡ offers.spelled_watts watts }
{
    if watts < 32768 {
        return watts;
    }
    if watts < 327_680 {
        return watts / 10 * 10;
    }
    if watts < 3_276_800 {
        return watts / 100 * 100;
    }
    watts / 1000 * 1000
}

/// The watts that the PMax of a schedule spells where these are shown.
fn p_max_of(dialect: Dialect, watts: u32) -> u32
    ensures { result ≡ offers.p_max_of dialect watts }
{
    match dialect {
        Dialect::Iso => spelled_watts(watts),
        Dialect::Din => watts.min(32767),
    }
}

/// The watts of the last schedule behind an accepted request.
fn next_schedule(talk: &TalkValues, ask: &Ask, shown: u32) -> u32
    ensures { result ≡ moves.next_schedule (stage_of talk.now) ask.now shown }
{
    match ask {
        Ask::ChargeParameters { .. } if 0 < shown => p_max_of(talk.dialect, shown),
        _ => talk.schedule,
    }
}

/// The last pre-charge behind an accepted request.
fn next_pre_charge(talk: &TalkValues, facts: &Facts, ask: &Ask) -> Option<LastPreCharge>
    ensures { option_map pre_charge_of result ≡ moves.next_pre_charge (stage_of talk.now) facts.now ask.now }
{
    match ask {
        Ask::PreCharge { voltage, .. } => Some(LastPreCharge {
            target: voltage.size,
            voltage: u32::from(facts.voltage.get()),
        }),
        _ => talk.pre_charge,
    }
}

impl TalkValues {
    /// Behind an accepted request that leads to this row.
    pub(crate) fn moved(
        self,
        row: Phase,
        facts: &Facts,
        plan: &PostPlan,
        request: &Request,
        shown: u32,
        at: u64,
    ) -> TalkValues
        ensures { row ≡ moves.next_row (stage_of self) facts.now plan.now request.now.ask shown
            → talked_of result ≡ moved_by facts.now plan.now request.now shown at (talked_of self) }
    {
        let shows = shows_watts(&request.ask);
        TalkValues {
            row,
            dialect: self.dialect,
            session: next_session(&self, facts, request),
            told: if shows { shown } else { self.told },
            schedule: next_schedule(&self, &request.ask, shown),
            pre_charge: next_pre_charge(&self, facts, &request.ask),
            asked: asks(plan, &request.ask).unwrap_or(self.asked),
            lowered: if shows {
                lowered_by(self.told, self.lowered, at, shown)
            } else {
                self.lowered
            },
        }
    }

    /// What a request is found to be, where `facts` are known.
    pub(crate) fn found(&self, facts: Facts, plan: &PostPlan, word: &NextWord) -> Found
        ensures { result ≡ found_as (stage_of self.now) facts plan.now word.now }
    {
        match word {
            NextWord::Negotiation { .. } => Found::Negotiation { matched: true },
            NextWord::Asked { request } => {
                let values = values_of(self, facts, 0);
                found_by(verdict_on(self, &values, plan, request).code, &request.ask)
            }
            NextWord::WrongSide => Found::WrongSide,
            NextWord::Refused => Found::Refused,
            NextWord::BadFrame => Found::BadFrame,
        }
    }
}
