//! For how many watts a word that is judged is shown a share of what the site has.

ghost use Rattle.std.specs.Prelude.{◌≡◌, ◌&&◌, if◌then◌else◌, List, Some, None, unwrap_or};
ghost use Rattle.std.specs.Option.{option_map};
ghost use Rattle.session_rules.specs.Asks as rule;
ghost use Rattle.session_rules.specs.Verdict as verdicts;
ghost use Rattle.post_spec.specs.Contactors.{standing};
ghost use Rattle.post_spec.specs.Course.{facts_of};
ghost use Rattle.post_spec.specs.Steps.{Seen};
ghost use Rattle.audit_sessions.specs.Values.{AreSeen};
ghost use Rattle.audit_course.specs.Asking.{asked_if, asked_with, asked_by};
ghost use Rattle.audit_course.specs.Values.{talked_of, course_of};
ghost use Rattle.audit_course.specs.declared.words.NextWord.TheVariants as next;

use crate::course::{CourseValues, TalkValues};
use crate::judging::{values_of, verdict_on};
use crate::words::NextWord;
use audit_sessions::SessionValues;
use session_rules::{asks, is_accepted, shows_watts};
use session_words::{Ask, Code, Facts, PostPlan, Request, Standing};

/// Whether the reply to a request with this verdict shows watts.
fn shows(code: Code, ask: &Ask) -> bool
    ensures { result ≡ (verdicts.is_accepted code && rule.shows_watts ask.now) }
{
    is_accepted(code) && shows_watts(ask)
}

/// The watts that a post asks for behind a request that is accepted, where it asked for so many before.
fn asked_behind(plan: &PostPlan, ask: &Ask, before: u32) -> u32
    ensures { result ≡ unwrap_or (rule.asks plan.now ask.now) before }
{
    asks(plan, ask).unwrap_or(before)
}

/// These watts, where they are asked for.
fn watts_if(shows: bool, watts: u32) -> Option<u32>
    ensures { result ≡ (if shows then Some watts else None) }
{
    if shows { Some(watts) } else { None }
}

/// The watts that a post asks for with a request that is judged so, where its reply shows watts.
fn asked_if(code: Code, plan: &PostPlan, ask: &Ask, before: u32) -> Option<u32>
    ensures { result ≡ asked_if code plan.now ask.now before }
{
    watts_if(shows(code, ask), asked_behind(plan, ask, before))
}

/// The same, where `facts` are known.
fn asked_by(
    session: &Option<TalkValues>,
    facts: Facts,
    plan: &PostPlan,
    judged: &Option<NextWord>,
) -> Option<u32>
    ensures { result ≡ asked_by (option_map talked_of session.now) facts plan.now judged.now }
{
    match session {
        None => None,
        Some(talk) => match judged {
            None => None,
            Some(word) => talk.asked_with(facts, plan, word),
        },
    }
}

impl TalkValues {
    /// The watts that the post asks for with a request.
    fn asked_at(&self, facts: Facts, plan: &PostPlan, request: &Request) -> Option<u32>
        ensures { result ≡ asked_with (talked_of self.now) facts plan.now (next.Asked request.now) }
    {
        let values = values_of(self, facts, 0);
        asked_if(
            verdict_on(self, &values, plan, request).code,
            plan,
            &request.ask,
            self.asked,
        )
    }

    /// The watts that the post asks for with a word.
    fn asked_with(&self, facts: Facts, plan: &PostPlan, word: &NextWord) -> Option<u32>
        ensures { result ≡ asked_with (talked_of self.now) facts plan.now word.now }
    {
        match word {
            NextWord::Asked { request } => self.asked_at(facts, plan, request),
            NextWord::Negotiation { .. }
            | NextWord::WrongSide
            | NextWord::Refused
            | NextWord::BadFrame => None,
        }
    }
}

impl CourseValues {
    /// The watts that the post asks for with a word that is `judged`, where that is shown a share of what the site has; what is kept of the session,
    /// and how the contactor stands, is as before the act.
    pub fn asks(
        &self,
        sessions: &SessionValues,
        contactor: Standing,
        plan: &PostPlan,
        judged: &Option<NextWord>,
    ) -> Option<u32>
        ensures { (past : List Seen) → AreSeen past sessions.now → contactor ≡ standing past
            → result ≡ asked_by (course_of self.now).session (facts_of past (course_of self.now)) plan.now judged.now }
    {
        let facts = self.facts(sessions, contactor);
        asked_by(&self.session, facts, plan, judged)
    }
}
