//! What is kept of a post.

ghost use Rattle.std.specs.Prelude.{◌≡◌, ◌↔◌, ◌+◌, ◌-◌, ℕ, Bool, true, List, [], ◌∷◌, Option, Some, None, is_some, if◌then◌else◌, IsTrue};
ghost use Rattle.charge_world.specs.declared.ports.Order.{Order};
ghost use Rattle.session_words.specs.declared.plan.PostPlan.{PostPlan};
ghost use Rattle.session_rules.specs.Finishing as finishing;
ghost use Rattle.post_spec.specs.Checked as checked;
ghost use Rattle.post_spec.specs.Facts as facts;
ghost use Rattle.post_spec.specs.Facts.{told_by};
ghost use Rattle.post_spec.specs.Kinds as kinds;
ghost use Rattle.post_spec.specs.Steps.{Give, Answer, End, Reading, event_at};
ghost use Rattle.told_pasts.specs.Mandated.{IsMandated};
ghost use Rattle.told_pasts.specs.Spelling.{SpelledWatts};
ghost use Rattle.told_pasts.specs.Steps.{ToldStep, Response, Replied, Other, Unasked, Hears, Does, Sends};
ghost use Rattle.faultless_pasts.specs.Faultless.{told_codecs};
ghost use Rattle.audit_mandates.specs.Checking.{is_near};
ghost use Rattle.audit_mandates.specs.Values as values;

use crate::preparation::{Preparation, says_finished};
use charge_world::{Dialect, IsolationLevel, PilotState, PlantEvent, What};
use contactor::is_ready;
use faultless_pasts::ToldCoded;
use session_rules::is_accepted;
use session_words::{Ask, Progress, Reply, Request, Tell};

/// What is kept of a post and its session.
#[derive(Clone, Copy)]
pub struct MandateValues {
    /// The post gives alternating current.
    pub ac: bool,
    /// A connection came in the newest block.
    pub arrived: bool,
    /// A session lives.
    pub lives: bool,
    /// The last state of the pilot.
    pub pilot: PilotState,
    /// What the isolation monitor found last since the newest connection.
    pub isolation: Option<IsolationLevel>,
    /// The first word without a reply was judged.
    pub judged: bool,
    /// The pilot as a word was judged last.
    pub judged_pilot: PilotState,
    /// Each answer was good: a negotiation that matched, or a code of the OK class.
    pub good: bool,
    /// The words that were answered.
    pub preparation: Preparation,
    /// The isolation was valid as the last finished CableCheck was answered, and has been so since.
    pub isolated: bool,
    /// How far the voltage of the last reply to PreCharge was from its target, in tenths of a volt.
    pub off: Option<u32>,
    /// PowerDelivery Start was answered in a session that was ready for it and has stayed so, and none that opens behind it.
    pub started: bool,
}

/// Whether an isolation is valid.
fn is_valid(level: Option<IsolationLevel>) -> bool
    ensures { result ≡ finishing.is_valid level }
{
    matches!(level, Some(IsolationLevel::Valid))
}

/// Whether a connection of a post began in a hearing.
fn comes_at(post: u8, what: &What) -> bool
    ensures { result ≡ values.comes (event_at post what.now []) }
{
    match what {
        What::Came { post: at, .. } => *at == post,
        What::Bytes { .. }
        | What::Gone { .. }
        | What::Datagram { .. }
        | What::Plant { .. }
        | What::Tick
        | What::Over => false,
    }
}

/// The state of the pilot that a post's charger told in a hearing.
fn pilot_at(post: u8, what: &What) -> Option<PilotState>
    ensures { result ≡ told_by facts.pilot_in (event_at post what.now []) }
{
    match what {
        What::Plant {
            post: at,
            event: PlantEvent::Pilot(state),
        } => if *at == post { Some(*state) } else { None },
        _ => None,
    }
}

/// The isolation that a post's charger told in a hearing.
fn isolation_at(post: u8, what: &What) -> Option<IsolationLevel>
    ensures { result ≡ told_by facts.isolation_in (event_at post what.now []) }
{
    match what {
        What::Plant {
            post: at,
            event: PlantEvent::Isolation(level),
        } => if *at == post { Some(*level) } else { None },
        _ => None,
    }
}

/// Whether a request is PowerDelivery Start.
fn asks_start(ask: &Ask) -> bool
    ensures { result ≡ kinds.asks_start ask.now }
{
    matches!(
        ask,
        Ask::PowerDelivery {
            progress: Progress::Start,
            ..
        }
    )
}

/// Whether a request is PowerDelivery Stop or Renegotiate.
fn asks_opening(ask: &Ask) -> bool
    ensures { result ≡ kinds.asks_opening ask.now }
{
    matches!(
        ask,
        Ask::PowerDelivery {
            progress: Progress::Stop | Progress::Renegotiate,
            ..
        }
    )
}

/// How far the voltage of a reply to PreCharge is from its target, in tenths of a volt.
fn off_in(ask: &Ask, tell: &Tell) -> Option<u32>
    ensures { result ≡ checked.off_in ask.now tell.now }
{
    match (ask, tell) {
        (
            Ask::PreCharge {
                voltage: target,
                ..
            },
            Tell::PreCharge { voltage, .. },
        ) => { Some(apart(target.size, voltage.size)) }
        _ => None,
    }
}

/// How far two amounts are apart.
fn apart(a: u32, b: u32) -> u32
    ensures { result ≡ (a - b) + (b - a) }
{
    if a < b { b - a } else { a - b }
}

/// Whether an amount is at most 20.0 V.
fn is_near(off: Option<u32>) -> bool
    ensures { result ≡ is_near off }
{
    match off {
        Some(off) => off <= 200,
        None => false,
    }
}

/// The dialect of a negotiation that matched: one was chosen, and the response is positive.
fn matched(chosen: Option<Dialect>, positive: bool) -> Option<Dialect>
    ensures { result ≡ (if positive then chosen else None) }
{
    if positive { chosen } else { None }
}

impl MandateValues {
    /// Before any step of a post that gives alternating current, or doesn't.
    pub fn new(ac: bool) -> MandateValues
        ensures value { result ≡ values.at_first ac }
        ensures none { values.AreOf [] result }
    {
        MandateValues {
            ac,
            arrived: false,
            lives: false,
            pilot: PilotState::A,
            isolation: None,
            judged: false,
            judged_pilot: PilotState::A,
            good: true,
            preparation: Preparation::new(),
            isolated: false,
            off: None,
            started: false,
        }
    }

    /// Where nothing was talked about.
    fn silent(self) -> MandateValues
        ensures { result ≡ values.silent self }
    {
        MandateValues {
            good: true,
            preparation: Preparation::new(),
            isolated: false,
            off: None,
            started: false,
            ..self
        }
    }

    /// With the session that a connection of the block before opens.
    fn opened(self) -> MandateValues
        ensures { result ≡ values.opened_by self }
    {
        if self.arrived {
            MandateValues {
                arrived: false,
                lives: true,
                judged: false,
                ..self.silent()
            }
        } else {
            self
        }
    }

    /// What is told behind a hearing, for the post of this number.
    fn then(self, post: u8, what: &What) -> MandateValues
        ensures { result ≡ values.heard_by (event_at post what.now []) self }
    {
        let opened = self.opened();
        let came = comes_at(post, what);
        let told = isolation_at(post, what);
        let valid = told.is_none() || is_valid(told);
        MandateValues {
            arrived: came,
            pilot: pilot_at(post, what).unwrap_or(opened.pilot),
            isolation: if came {
                None
            } else {
                told.or(opened.isolation)
            },
            isolated: opened.isolated && valid,
            started: opened.started && (opened.ac || valid),
            ..opened
        }
    }

    /// Behind a hearing, for the post of this number.
    pub fn heard(self, post: u8, what: &What) -> MandateValues
        ensures { (steps : List ToldStep) (at : ℕ) (bytes : List ℕ) → values.AreOf steps self
            → values.StayOf self.ac (Hears at (event_at post what.now bytes) ∷ steps) result }
    {
        self.then(post, what)
    }

    /// With a word that was judged now, or not.
    fn judging(self, judged: bool) -> MandateValues
        ensures { result ≡ values.judged_so judged self }
    {
        MandateValues {
            judged: judged || self.judged,
            judged_pilot: if judged {
                self.pilot
            } else {
                self.judged_pilot
            },
            ..self
        }
    }

    /// Behind an order to the charger, or an answer to a datagram; for it a word was `judged`, or wasn't.
    pub fn acted(self, judged: bool) -> MandateValues
        ensures order { (steps : List ToldStep) (reading : Option Reading) (given : Order) (taken : Bool) → judged ≡ is_some reading → values.AreOf steps self
            → values.AreOf (Does reading (Give given) taken ∷ steps) result }
        ensures datagram { (steps : List ToldStep) (reading : Option Reading) (bytes : List ℕ) (taken : Bool) → judged ≡ is_some reading → values.AreOf steps self
            → values.AreOf (Does reading (Answer bytes) taken ∷ steps) result }
        ensures current { result.ac ≡ self.ac }
    {
        self.judging(judged)
    }

    /// Behind the end of the session, for which no word is judged.
    pub fn ended(self) -> MandateValues
        ensures value { result ≡ values.ended_by self }
        ensures behind { (steps : List ToldStep) (cause : ℕ) (taken : Bool) → values.AreOf steps self → values.AreOf (Does None (End cause) taken ∷ steps) result }
    {
        MandateValues {
            lives: false,
            judged: false,
            ..self.silent()
        }
    }

    /// As bytes are sent, before what they say.
    fn sent(self, judged: bool) -> MandateValues
        ensures { result ≡ values.sent_by judged self }
    {
        MandateValues {
            judged: false,
            ..self.judging(judged)
        }
    }

    /// With a negotiation for which this dialect was chosen.
    fn responded(self, chosen: Option<Dialect>) -> MandateValues
        ensures { result ≡ values.said_if self.lives (values.responded_by chosen self) self }
    {
        if self.lives {
            MandateValues {
                good: chosen.is_some() && self.good,
                preparation: self.preparation.negotiated(chosen),
                ..self
            }
        } else {
            self.silent()
        }
    }

    /// Whether the session is ready for PowerDelivery Start, with the pilot as that word was judged.
    fn may(&self, state: PilotState) -> bool
        ensures { result ≡ values.may self.now state }
    {
        self.preparation.is_whole(self.ac)
            && (self.ac || self.isolated && is_near(self.off))
            && is_ready(state)
    }

    /// Whether PowerDelivery Start is answered behind this reply.
    fn starts_by(&self, request: &Request) -> bool
        ensures { result ≡ values.started_behind request.now self.now }
    {
        if asks_opening(&request.ask) {
            false
        } else {
            asks_start(&request.ask) && self.may(self.judged_pilot) || self.started
        }
    }

    /// With a reply to a request.
    fn replied(self, request: &Request, reply: &Reply) -> MandateValues
        ensures { result ≡ values.said_if self.lives (values.replied_by request.now reply.now self) self }
    {
        if !self.lives {
            return self.silent();
        }
        MandateValues {
            good: is_accepted(reply.code) && self.good,
            preparation: self.preparation.answered(request, reply),
            isolated: if matches!(request.ask, Ask::CableCheck { .. })
                && says_finished(&reply.tell)
            {
                is_valid(self.isolation)
            } else {
                self.isolated
            },
            off: off_in(&request.ask, &reply.tell).or(self.off),
            started: self.starts_by(request),
            ..self
        }
    }

    /// With something that no word asked for.
    fn unasked(self) -> MandateValues
        ensures { result ≡ values.said_if self.lives self self }
    {
        if self.lives { self } else { self.silent() }
    }

    /// Behind the response to a negotiation, for which this dialect was chosen. The response is positive, or isn't; for it a word was `judged`, or
    /// wasn't.
    pub fn sent_response(
        self,
        judged: bool,
        chosen: Option<Dialect>,
        positive: bool,
    ) -> MandateValues
        ensures { (steps : List ToldStep) (reading : Option Reading) (bytes : List ℕ) (taken : Bool) → judged ≡ is_some reading → values.AreOf steps self
            → values.StayOf self.ac (Sends reading bytes taken (Response chosen positive) ∷ steps) result }
    {
        self.sent(judged).responded(matched(chosen, positive))
    }

    /// Behind a reply to a request.
    pub fn sent_reply(self, judged: bool, request: &Request, reply: &Reply) -> MandateValues
        ensures { (steps : List ToldStep) (reading : Option Reading) (bytes : List ℕ) (taken : Bool) (watts : SpelledWatts) → judged ≡ is_some reading
            → values.AreOf steps self → values.StayOf self.ac (Sends reading bytes taken (Replied request.now reply.now watts) ∷ steps) result }
    {
        self.sent(judged).replied(request, reply)
    }

    /// Behind something else that was sent in place of an answer.
    pub fn sent_other(self, judged: bool) -> MandateValues
        ensures { (steps : List ToldStep) (reading : Option Reading) (bytes : List ℕ) (taken : Bool) → judged ≡ is_some reading → values.AreOf steps self
            → values.StayOf self.ac (Sends reading bytes taken Other ∷ steps) result }
    {
        self.sent(judged).responded(None)
    }

    /// Behind something that was sent while no word was without an answer.
    pub fn sent_unasked(self, judged: bool) -> MandateValues
        ensures { (steps : List ToldStep) (reading : Option Reading) (bytes : List ℕ) (taken : Bool) → judged ≡ is_some reading → values.AreOf steps self
            → values.StayOf self.ac (Sends reading bytes taken Unasked ∷ steps) result }
    {
        self.sent(judged).unasked()
    }

    /// Whether the values say so, where PowerDelivery Start is the first word without a reply, or isn't.
    fn closes(&self, starting: bool) -> bool
        ensures { result ≡ values.is_mandated starting self.now }
    {
        let state = if self.judged {
            self.judged_pilot
        } else {
            self.pilot
        };
        self.lives && self.good && (starting && self.may(state) || self.started)
    }

    /// Whether the post is mandated to have its contactor closed. `starting` says that PowerDelivery Start is the first word without a reply.
    pub fn is_mandated<C: ToldCoded>(&self, starting: bool) -> bool
        ensures { (plan : PostPlan) (steps : List ToldStep) → finishing.is_ac plan.mode ≡ self.now.ac → values.AreOf steps self.now
            → (IsTrue starting ↔ values.Starts (told_codecs C.negotiates C.reads C.encodes C.responds C.watts) plan steps)
            → (IsTrue result ↔ IsMandated (told_codecs C.negotiates C.reads C.encodes C.responds C.watts) plan steps) }
    {
        self.closes(starting)
    }
}
