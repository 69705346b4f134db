//! Whether a cause comes with a step.

ghost use Rattle.std.specs.Prelude.{◌≡◌, ◌↔◌, ℕ, not, ◌&&◌, ◌||◌, List, [], ◌∷◌, Option, is_some, IsTrue};
ghost use Rattle.std.specs.Option.{option_map};
ghost use Rattle.post_spec.specs.Causes.{is_set_up_in};
ghost use Rattle.post_spec.specs.Contactors as contactors;
ghost use Rattle.post_spec.specs.Course.{facts_of};
ghost use Rattle.post_spec.specs.Steps.{Give, Seen, Reading, event_at};
ghost use Rattle.told_pasts.specs.Steps.{Said, ToldStep, Hears, Does, Sends, seen_in};
ghost use Rattle.faultless_pasts.specs.Faultless.{told_codecs};
ghost use Rattle.audit_causes.specs.Values.{Comes};
ghost use Rattle.audit_sessions.specs.Values.{AreSeen};
ghost use Rattle.audit_course.specs.Coming as coming;
ghost use Rattle.audit_course.specs.Coming.{Knows, IsDueNow};
ghost use Rattle.audit_course.specs.Values.{talked_of, course_of, said_as};

use crate::course::{CourseValues, TalkValues};
use crate::words::{NextWord, Saying};
use audit_sessions::SessionValues;
use charge_world::{Order, What};
use faultless_pasts::ToldCoded;
use session_rules::{Watch, allowed_watts, is_set_up, plant_cause, word_cause};
use session_words::{EndCause, Facts, PostPlan, Standing, Timeout};

/// How a contactor stood before a hearing.
#[derive(Clone, Copy)]
pub struct Stood {
    pub standing: Standing,
    /// Close was ordered, taken or failed, and no Open was taken since.
    pub live: bool,
}

/// Whether a reply waits.
fn is_waiting(sessions: &SessionValues) -> bool
    ensures { result ≡ coming.waits_in sessions.now.session }
{
    match &sessions.session {
        Some(moments) => moments.waits,
        None => false,
    }
}

/// What is watched before a hearing at this moment (in milliseconds).
fn watch_of(talk: &TalkValues, plan: &PostPlan, stood: Stood, at: u64) -> Watch
    ensures { result ≡ coming.watch_of plan.now (talked_of talk.now) stood.standing stood.live at }
{
    Watch {
        row: talk.row,
        standing: stood.standing,
        live: stood.live,
        phases: plan.mode.phases(),
        allowed: allowed_watts(talk.told, talk.lowered, at),
    }
}

/// The cause that a hearing is in a session, if it is one.
fn cause_of_event(watch: &Watch, post: u8, what: &What) -> Option<EndCause>
    ensures { result ≡ coming.cause_of_event watch.now (event_at post what.now []) }
{
    match what {
        What::Came { post: at, .. } => gone_if(*at == post),
        What::Gone { post: at } => gone_if(*at == post),
        What::Plant { post: at, event } => if *at == post {
            plant_cause(watch, event)
        } else {
            None
        },
        What::Over => Some(EndCause::RunOver),
        What::Bytes { .. } | What::Datagram { .. } | What::Tick => None,
    }
}

/// The end of a connection, where it is this post's.
fn gone_if(mine: bool) -> Option<EndCause>
    ensures { result ≡ coming.gone_if mine }
{
    if mine { Some(EndCause::Gone) } else { None }
}

/// Whether bytes came on the connection of a post.
fn brings(post: u8, what: &What) -> bool
    ensures { result ≡ coming.brings (event_at post what.now []) }
{
    match what {
        What::Bytes { post: at, .. } => *at == post,
        _ => false,
    }
}

/// Whether a session lives.
fn lives(sessions: &SessionValues) -> bool
    ensures { result ≡ is_some sessions.now.session }
{
    sessions.session.is_some()
}

/// Whether a deadline was told.
fn has_timeout(timeout: Option<Timeout>) -> bool
    ensures { result ≡ is_some timeout }
{
    timeout.is_some()
}

/// Whether a cause was told.
fn has_cause(cause: Option<EndCause>) -> bool
    ensures { result ≡ is_some cause }
{
    cause.is_some()
}

/// Whether SessionSetup was accepted in a session.
fn is_set_up_in(session: &Option<TalkValues>) -> bool
    ensures { result ≡ is_set_up_in (option_map talked_of session.now) }
{
    match session {
        Some(talk) => is_set_up(talk.row),
        None => false,
    }
}

/// Whether words made something of a session.
fn talks(session: &Option<TalkValues>) -> bool
    ensures { result ≡ is_some (option_map talked_of session.now) }
{
    session.is_some()
}

/// Whether all three are so.
fn all(first: bool, second: bool, third: bool) -> bool
    ensures { result ≡ (first && (second && third)) }
{
    first && second && third
}

/// Whether one of these causes came: of the word only where one comes.
fn any(due: bool, outside: bool, comes: bool, word: bool) -> bool
    ensures { result ≡ ((due || outside) || (comes && word)) }
{
    due || outside || comes && word
}

/// Whether a session that lives breaks on a call that failed, or on what was sent.
fn breaks(taken: bool, lives: bool, unmatched: bool) -> bool
    ensures { result ≡ ((not taken && lives) || (taken && unmatched)) }
{
    !taken && lives || taken && unmatched
}

/// Whether an order is one to close, and was taken.
fn closes(given: Order, taken: bool) -> bool
    ensures { result ≡ (coming.is_close given && taken) }
{
    matches!(given, Order::Close) && taken
}

/// Whether the response to a negotiation that matched nothing was sent.
fn is_unmatched(saying: &Saying) -> bool
    ensures { result ≡ coming.is_unmatched saying.now }
{
    match saying {
        Saying::Response { chosen, .. } => chosen.is_none(),
        Saying::Replied { .. } | Saying::Other | Saying::Unasked => false,
    }
}

impl CourseValues {
    /// Whether the session has reached its deadline, off what is kept of it.
    pub fn is_due(&self, sessions: &SessionValues) -> bool
        ensures { (past : List Seen) → AreSeen past sessions.now → (IsTrue result ↔ IsDueNow (course_of self.now).session past) }
    {
        let reached = sessions.reached(is_set_up_in(&self.session));
        all(talks(&self.session), lives(sessions), has_timeout(reached))
    }

    /// The cause that a hearing is, if it is one.
    fn cause_heard(
        &self,
        plan: &PostPlan,
        stood: Stood,
        at: u64,
        post: u8,
        what: &What,
    ) -> Option<EndCause>
        ensures { result ≡ coming.cause_heard (course_of self.now).session plan.now stood.standing stood.live at (event_at post what.now []) }
    {
        match &self.session {
            Some(talk) => cause_of_event(&watch_of(talk, plan, stood, at), post, what),
            None => None,
        }
    }

    /// The cause that the next word is, if one comes and is a cause.
    fn cause_of_word(
        &self,
        sessions: &SessionValues,
        contactor: Standing,
        plan: &PostPlan,
        next: &Option<NextWord>,
    ) -> Option<EndCause>
        ensures { (past : List Seen) → AreSeen past sessions.now → contactor ≡ contactors.standing past
            → result ≡ coming.cause_of_word (course_of self.now).session (coming.waits_in sessions.now.session) (facts_of past (course_of self.now)) plan.now next.now }
    {
        let facts = self.facts(sessions, contactor);
        cause_by(&self.session, is_waiting(sessions), facts, plan, next)
    }
}

/// The same, where `facts` are known.
fn cause_by(
    session: &Option<TalkValues>,
    waiting: bool,
    facts: Facts,
    plan: &PostPlan,
    next: &Option<NextWord>,
) -> Option<EndCause>
    ensures { result ≡ coming.cause_of_word (option_map talked_of session.now) waiting facts plan.now next.now }
{
    match session {
        None => None,
        Some(talk) => match next {
            None => None,
            Some(word) => word_cause(waiting, talk.found(facts, plan, word)),
        },
    }
}

/// Whether a cause comes with a hearing, for the post of this number, off what is kept behind it, the word that comes `next` behind it, and how the
/// contactor `stood` before.
pub fn comes_heard<C: ToldCoded>(
    course: &CourseValues,
    sessions: &SessionValues,
    contactor: Standing,
    plan: &PostPlan,
    next: &Option<NextWord>,
    stood: Stood,
    post: u8,
    what: &What,
) -> bool
    ensures { (steps : List ToldStep) (at : ℕ) (bytes : List ℕ)
        → Knows (told_codecs C.negotiates C.reads C.encodes C.responds C.watts) plan.now (Hears at (event_at post what.now bytes) ∷ steps) course.now sessions.now contactor next.now
        → stood.standing ≡ contactors.standing (seen_in steps) → stood.live ≡ contactors.live (seen_in steps)
        → (IsTrue result ↔ Comes (told_codecs C.negotiates C.reads C.encodes C.responds C.watts) plan.now (Hears at (event_at post what.now bytes) ∷ steps)) }
{
    let due = course.is_due(sessions);
    let heard = course.cause_heard(plan, stood, sessions.moment, post, what);
    let word = course.cause_of_word(sessions, contactor, plan, next);
    let outside = has_cause(heard);
    let ends = has_cause(word);
    any(due, outside, brings(post, what), ends)
}

/// Whether a cause comes with an order to the charger, `taken` or failed.
pub fn comes_driven<C: ToldCoded>(
    course: &CourseValues,
    sessions: &SessionValues,
    contactor: Standing,
    plan: &PostPlan,
    next: &Option<NextWord>,
    given: Order,
    taken: bool,
) -> bool
    ensures { (steps : List ToldStep) (reading : Option Reading)
        → Knows (told_codecs C.negotiates C.reads C.encodes C.responds C.watts) plan.now (Does reading (Give given) taken ∷ steps) course.now sessions.now contactor next.now
        → (IsTrue result ↔ Comes (told_codecs C.negotiates C.reads C.encodes C.responds C.watts) plan.now (Does reading (Give given) taken ∷ steps)) }
{
    let word = course.cause_of_word(sessions, contactor, plan, next);
    let broken = breaks(taken, lives(sessions), false);
    any(false, broken, closes(given, taken), has_cause(word))
}

/// Whether a cause comes with bytes that were sent, `taken` or not, and say this.
pub fn comes_sent<C: ToldCoded>(
    course: &CourseValues,
    sessions: &SessionValues,
    contactor: Standing,
    plan: &PostPlan,
    next: &Option<NextWord>,
    saying: &Saying,
    taken: bool,
) -> bool
    ensures { (steps : List ToldStep) (reading : Option Reading) (bytes : List ℕ) (said : Said) → saying.now ≡ said_as said
        → Knows (told_codecs C.negotiates C.reads C.encodes C.responds C.watts) plan.now (Sends reading bytes taken said ∷ steps) course.now sessions.now contactor next.now
        → (IsTrue result ↔ Comes (told_codecs C.negotiates C.reads C.encodes C.responds C.watts) plan.now (Sends reading bytes taken said ∷ steps)) }
{
    let word = course.cause_of_word(sessions, contactor, plan, next);
    let broken = breaks(taken, lives(sessions), is_unmatched(saying));
    any(false, broken, taken, has_cause(word))
}

/// No cause comes with an answer to a datagram, nor with the end of a session.
pub fn idle_acts<C: ToldCoded>()
    ensures { coming.IdleActs (told_codecs C.negotiates C.reads C.encodes C.responds C.watts) }
{}
