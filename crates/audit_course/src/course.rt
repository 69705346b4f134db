//! What is kept of one post.

ghost use Rattle.std.specs.Prelude.{◌≡◌, ℕ, Bool, List, [], ◌∷◌, Option, Some, None};
ghost use Rattle.std.specs.Option.{option_map};
ghost use Rattle.session_words.specs.declared.plan.PostPlan.{PostPlan};
ghost use Rattle.session_rules.specs.Moves as moves;
ghost use Rattle.session_rules.specs.Stages.{first_stage, confirmed_row, confirmed};
ghost use Rattle.post_spec.specs.Contactors.{standing};
ghost use Rattle.post_spec.specs.Course.{Course, unmoved, opened, renew_heard, facts_of, chosen_talk, asked_course, read_by, kept_by, acted};
ghost use Rattle.post_spec.specs.Sessions.{arriving};
ghost use Rattle.post_spec.specs.Steps.{End, Seen, Reading, event_at};
ghost use Rattle.told_pasts.specs.Course as told;
ghost use Rattle.told_pasts.specs.Course.{told_course};
ghost use Rattle.told_pasts.specs.Steps.{Said, ToldStep, Hears, Sends, seen_in};
ghost use Rattle.audit_sessions.specs.Values.{arrival_of, AreSeen};
ghost use Rattle.audit_course.specs.Changes.{heard_by, accepted_course, read_as, read_if, stage_as, sent_by};
ghost use Rattle.audit_course.specs.Values.{pre_charge_of, stage_of, talked_of, course_of, said_as, IsRead};

use crate::judging::{values_of, verdict_on};
use crate::words::{NextWord, Saying};
use audit_sessions::{Arrival, SessionValues};
use charge_world::{Dialect, PlantEvent, What};
use session_rules::{Lowered, is_accepted, joins};
use session_words::{
    Ask, Facts, Phase, PostPlan, Progress, Request, SessionId, Standing, Tell, Tuple,
};

/// The last PreCharge of a session.
#[derive(Clone, Copy)]
pub struct LastPreCharge {
    /// The voltage that the request asked for, in tenths of a volt.
    pub target: u32,
    /// The voltage that the reply told, in tenths of a volt.
    pub voltage: u32,
}

/// What the words made of a session.
#[derive(Drop)]
pub struct TalkValues {
    /// The row that they led to.
    pub row: Phase,
    /// The dialect that was negotiated. In row Connected it says nothing.
    pub dialect: Dialect,
    /// The identifier of the session. Before SessionSetup is accepted, the one that the connection's token gives.
    pub session: SessionId,
    /// The watts that its replies were to tell last; 0 before.
    pub told: u32,
    /// The watts of its last schedule; 0 without one.
    pub schedule: u32,
    pub pre_charge: Option<LastPreCharge>,
    /// The watts that it asks for.
    pub asked: u32,
    /// Those that stay allowed behind a reply that lowered them.
    pub lowered: Option<Lowered>,
}

/// What they made of a post.
#[derive(Drop)]
pub struct CourseValues {
    /// The session, if one lives.
    pub session: Option<TalkValues>,
    /// The paused session to which a car may come back.
    pub kept: Option<SessionId>,
    /// This session joined that one.
    pub joined: bool,
    /// The car is still to be asked to negotiate anew.
    pub renew: bool,
}

/// Whether the car is to be asked to negotiate anew, behind a hearing.
fn renewed(renew: bool, post: u8, what: &What) -> bool
    ensures { result ≡ renew_heard (event_at post what.now []) renew }
{
    match what {
        What::Came { post: at, .. } => *at != post && renew,
        What::Plant {
            post: at,
            event: PlantEvent::RenewAsked,
        } => *at == post || renew,
        _ => renew,
    }
}

/// The voltage of the last reply to PreCharge, with that request's target.
fn pre_charge_said(ask: &Ask, tell: &Tell, before: Option<LastPreCharge>) -> Option<LastPreCharge>
    ensures { option_map pre_charge_of result ≡ told.pre_charge_said ask.now tell.now (option_map pre_charge_of before) }
{
    match (ask, tell) {
        (
            Ask::PreCharge {
                voltage: target,
                ..
            },
            Tell::PreCharge { voltage, .. },
        ) => Some(LastPreCharge {
            target: target.size,
            voltage: voltage.size,
        }),
        _ => before,
    }
}

/// The power of the first of these tuples: this one where there is none.
fn power_of(tuples: &[Tuple], before: u32) -> u32
    ensures { result ≡ told.power_of tuples.now before }
{
    match tuples.first() {
        Some(tuple) => tuple.least.size,
        None => before,
    }
}

/// The power of the last schedule, behind a reply.
fn schedule_said(tell: &Tell, before: u32) -> u32
    ensures { result ≡ told.schedule_said tell.now before }
{
    match tell {
        Tell::ChargeParameters {
            schedule: Some(tuples),
            ..
        } => power_of(tuples.as_slice(), before),
        _ => before,
    }
}

/// The same identifier once more, if there is one.
fn copied(kept: &Option<SessionId>) -> Option<SessionId>
    ensures { result ≡ kept.now }
{
    match kept {
        Some(session) => Some(session.copied()),
        None => None,
    }
}

/// The same session once more, if there is one.
fn session_copied(session: &Option<TalkValues>) -> Option<TalkValues>
    ensures { result ≡ session.now }
{
    match session {
        Some(talk) => Some(talk.copied()),
        None => None,
    }
}

/// The paused session that is kept behind the end of this one: one that ends paused (29) leaves its identifier.
fn kept_by(session: Option<TalkValues>, cause: u8, kept: Option<SessionId>) -> Option<SessionId>
    ensures { result ≡ kept_by (option_map talked_of session) cause kept }
{
    match session {
        Some(talk) => if cause == 29 {
            Some(talk.session)
        } else {
            kept
        },
        None => kept,
    }
}

/// The row behind feedback that confirmed the closing of the contactor.
fn confirmed_row(row: Phase) -> Phase
    ensures { result ≡ confirmed_row row }
{
    match row {
        Phase::DcClosing => Phase::DcCharging,
        Phase::AcClosing => Phase::AcCharging,
        _ => row,
    }
}

impl TalkValues {
    /// Of a connection that came with this token.
    fn opened(token: u64) -> TalkValues
        ensures { talked_of result ≡ record { stage = first_stage token; asked = 0; lowered = None } }
    {
        TalkValues {
            row: Phase::Connected,
            dialect: Dialect::Iso,
            session: SessionId::of_token(token),
            told: 0,
            schedule: 0,
            pre_charge: None,
            asked: 0,
            lowered: None,
        }
    }

    /// The same values once more.
    fn copied(&self) -> TalkValues
        ensures { result ≡ self.now }
    {
        TalkValues {
            row: self.row,
            dialect: self.dialect,
            session: self.session.copied(),
            told: self.told,
            schedule: self.schedule,
            pre_charge: self.pre_charge,
            asked: self.asked,
            lowered: self.lowered,
        }
    }

    /// Behind a negotiation.
    fn chosen(self, chosen: Option<Dialect>) -> TalkValues
        ensures { talked_of result ≡ chosen_talk (talked_of self) chosen }
    {
        match chosen {
            Some(dialect) => TalkValues {
                row: Phase::Negotiated,
                dialect,
                ..self
            },
            None => self,
        }
    }

    /// With what bytes said that were sent.
    fn said(self, saying: &Saying) -> TalkValues
        ensures { talked_of result ≡ record (talked_of self) { stage = stage_as saying.now (stage_of self) } }
    {
        match saying {
            Saying::Replied { request, reply } => TalkValues {
                schedule: schedule_said(&reply.tell, self.schedule),
                pre_charge: pre_charge_said(&request.ask, &reply.tell, self.pre_charge),
                ..self
            },
            Saying::Response { .. } | Saying::Other | Saying::Unasked => self,
        }
    }

    /// Behind a reply that was sent.
    fn confirmed(self) -> TalkValues
        ensures { talked_of result ≡ record (talked_of self) { stage = confirmed (stage_of self) } }
    {
        TalkValues {
            row: confirmed_row(self.row),
            ..self
        }
    }

    /// With a request that was judged, where `facts` were known, at a moment (in milliseconds).
    fn asked(
        self,
        facts: Facts,
        plan: &PostPlan,
        request: &Request,
        shown: u32,
        at: u64,
    ) -> CourseValues
        ensures { course_of result
            ≡ asked_course (talked_of self) facts (moves.facts_behind (stage_of self) facts plan.now request.now) plan.now request.now shown at }
    {
        let values = values_of(&self, facts, shown);
        let verdict = verdict_on(&self, &values, plan, request);
        if is_accepted(verdict.code) {
            self.accepted(verdict.row, values.facts, plan, request, shown, at)
        } else {
            CourseValues {
                session: Some(self),
                kept: values.facts.kept,
                joined: values.facts.joined,
                renew: values.facts.renew,
            }
        }
    }

    /// With a request that was accepted.
    fn accepted(
        self,
        row: Phase,
        facts: Facts,
        plan: &PostPlan,
        request: &Request,
        shown: u32,
        at: u64,
    ) -> CourseValues
        ensures { row ≡ moves.next_row (stage_of self) facts plan.now request.now.ask shown
            → course_of result ≡ accepted_course (talked_of self) facts plan.now request.now shown at }
    {
        let joining = joins(self.dialect, &facts, &request.session);
        let session = Some(self.moved(row, &facts, plan, request, shown, at));
        match request.ask {
            Ask::SessionSetup { .. } => CourseValues {
                session,
                kept: None,
                joined: joining,
                renew: facts.renew,
            },
            Ask::PowerDelivery {
                progress: Progress::Renegotiate,
                ..
            } => CourseValues {
                session,
                kept: facts.kept,
                joined: facts.joined,
                renew: false,
            },
            _ => CourseValues {
                session,
                kept: facts.kept,
                joined: facts.joined,
                renew: facts.renew,
            },
        }
    }
}

impl CourseValues {
    /// Before any step.
    pub fn new() -> CourseValues
        ensures { course_of result ≡ unmoved }
    {
        CourseValues {
            session: None,
            kept: None,
            joined: false,
            renew: false,
        }
    }

    /// The same values once more.
    pub fn copied(&self) -> CourseValues
        ensures { result ≡ self.now }
    {
        CourseValues {
            session: session_copied(&self.session),
            kept: copied(&self.kept),
            joined: self.joined,
            renew: self.renew,
        }
    }

    /// With the session that a connection of the block before opens.
    fn opened(self, arrived: Option<Arrival>) -> CourseValues
        ensures { course_of result ≡ opened (arrival_of arrived) (course_of self) }
    {
        match arrived {
            Some(arrival) => CourseValues {
                session: Some(TalkValues::opened(arrival.token)),
                joined: false,
                ..self
            },
            None => self,
        }
    }

    /// Behind a hearing, off the values.
    fn then(self, arrived: Option<Arrival>, post: u8, what: &What) -> CourseValues
        ensures { course_of result ≡ heard_by (arrival_of arrived) (event_at post what.now []) (course_of self) }
    {
        let opened = self.opened(arrived);
        CourseValues {
            renew: renewed(opened.renew, post, what),
            ..opened
        }
    }

    /// Behind a hearing, for the post of this number, where this connection `arrived` in the block before, if one did.
    pub fn heard(self, arrived: Option<Arrival>, post: u8, what: &What) -> CourseValues
        ensures { (plan : PostPlan) (steps : List ToldStep) (at : ℕ) (bytes : List ℕ) → arriving (seen_in steps) ≡ arrival_of arrived
            → course_of self ≡ told_course plan steps → course_of result ≡ told_course plan (Hears at (event_at post what.now bytes) ∷ steps) }
    {
        self.then(arrived, post, what)
    }

    /// What the next word is judged by, off what is kept of the session, and how the contactor stands.
    pub fn facts(&self, sessions: &SessionValues, contactor: Standing) -> Facts
        ensures { (past : List Seen) → AreSeen past sessions.now → contactor ≡ standing past → result ≡ facts_of past (course_of self.now) }
    {
        let kept = copied(&self.kept);
        sessions.facts(contactor, kept, self.joined, self.renew)
    }

    /// With a word that was judged, off the values.
    fn reading(
        self,
        facts: Facts,
        plan: &PostPlan,
        at: u64,
        word: &NextWord,
        shown: u32,
    ) -> CourseValues
        ensures { course_of result ≡ read_as (course_of self).session facts at (course_of self) plan.now word.now shown }
    {
        let CourseValues {
            session,
            kept,
            joined,
            renew,
        } = self;
        let session = match session {
            None => None,
            Some(talk) => match word {
                NextWord::Negotiation { chosen } => Some(talk.chosen(*chosen)),
                NextWord::Asked { request } => {
                    return talk.asked(facts, plan, request, shown, at);
                }
                NextWord::WrongSide | NextWord::Refused | NextWord::BadFrame => Some(talk),
            },
        };
        CourseValues {
            session,
            kept,
            joined,
            renew,
        }
    }

    /// With a word that was judged, if one was.
    fn reading_if(
        self,
        facts: Facts,
        plan: &PostPlan,
        at: u64,
        judged: &Option<NextWord>,
        shown: u32,
    ) -> CourseValues
        ensures { course_of result ≡ read_if (course_of self) facts at plan.now judged.now shown }
    {
        match judged {
            None => self,
            Some(word) => self.reading(facts, plan, at, word, shown),
        }
    }

    /// With the word that was `judged` for an act, if one was, and these watts `shown`; what is kept of the session, and how the contactor stands, is as
    /// before the act.
    pub fn read(
        self,
        sessions: &SessionValues,
        contactor: Standing,
        plan: &PostPlan,
        judged: &Option<NextWord>,
        shown: u32,
    ) -> CourseValues
        ensures { (past : List Seen) (c : Course) (reading : Option Reading) → AreSeen past sessions.now → contactor ≡ standing past → course_of self ≡ c
            → IsRead judged.now shown reading → course_of result ≡ read_by c.session past c plan.now reading }
    {
        let facts = self.facts(sessions, contactor);
        self.reading_if(facts, plan, sessions.moment, judged, shown)
    }

    /// With what bytes say that are sent, and `taken` or not.
    fn then_sent(self, saying: &Saying, taken: bool) -> CourseValues
        ensures { course_of result ≡ sent_by saying.now taken (course_of self) }
    {
        let CourseValues {
            session,
            kept,
            joined,
            renew,
        } = self;
        let session = match session {
            None => None,
            Some(talk) => {
                let said = talk.said(saying);
                Some(if taken { said.confirmed() } else { said })
            }
        };
        CourseValues {
            session,
            kept,
            joined,
            renew,
        }
    }

    /// Behind bytes that were sent. The values are those with the word that was judged for them, if one was.
    pub fn sent(self, saying: &Saying, taken: bool) -> CourseValues
        ensures { (plan : PostPlan) (steps : List ToldStep) (reading : Option Reading) (bytes : List ℕ) (said : Said) → saying.now ≡ said_as said
            → course_of self ≡ read_by (told_course plan steps).session (seen_in steps) (told_course plan steps) plan reading
            → course_of result ≡ told_course plan (Sends reading bytes taken said ∷ steps) }
    {
        self.then_sent(saying, taken)
    }

    /// Behind the end of the session, by the cause of this number. A session that ends paused (29) leaves its identifier.
    pub fn ended(self, cause: u8) -> CourseValues
        ensures { (taken : Bool) → course_of result ≡ acted (End cause) taken (course_of self) }
    {
        let CourseValues {
            session,
            kept,
            renew,
            ..
        } = self;
        let kept = kept_by(session, cause, kept);
        CourseValues {
            session: None,
            kept,
            joined: false,
            renew,
        }
    }
}
