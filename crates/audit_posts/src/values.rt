//! What is kept of one post.

ghost use Rattle.std.specs.Prelude.{◌≡◌, ℕ, max, Bool, true, false, List, [], ◌∷◌, Option, None, is_some, if◌then◌else◌};
ghost use Rattle.charge_world.specs.declared.entry.Entry.{Entry};
ghost use Rattle.charge_world.specs.declared.entry.Entry.TheVariants as entries;
ghost use Rattle.post_spec.specs.Steps.{Give, Answer, End, Reading, event_at, moment};
ghost use Rattle.told_pasts.specs.Checks.{is_heard, is_act_of};
ghost use Rattle.told_pasts.specs.Steps.{Said, ToldStep, Hears, Does, Sends};
ghost use Rattle.faultless_pasts.specs.Faultless.{told_codecs};
ghost use Rattle.audit_course.specs.Values.{IsRead, IsNextWord, said_as};
ghost use Rattle.audit_posts.specs.Values.{AreOf, IsMost, spelled_said};
ghost use Rattle.audit_mandates.specs.Values as mandates;

use audit_causes::CauseValues;
use audit_contactors::ContactorValues;
use audit_course::{
    CourseValues, NextWord, Saying, Stood, comes_driven, comes_heard, comes_sent, idle_acts,
};
use audit_mandates::MandateValues;
use audit_sessions::{Arrival, SessionValues};
use charge_world::{Entry, Heard, Order};
use faultless_pasts::ToldCoded;
use session_rules::{is_ac, shows_watts};
use session_words::PostPlan;

/// All that is kept of a post.
#[derive(Drop)]
pub struct KeptPost {
    /// Its session's moments, and its charger.
    pub sessions: SessionValues,
    /// Its contactor.
    pub contactor: ContactorValues,
    /// What tells whether it is mandated to close.
    pub mandate: MandateValues,
    /// What tells whether an order to open is owed.
    pub causes: CauseValues,
    /// How far the words of its session have come.
    pub course: CourseValues,
    /// The greatest watts that the last reply spelled that shows watts: 0 before.
    pub spelled: u64,
}

/// Whether a word was judged.
fn was_judged(judged: &Option<NextWord>) -> bool
    ensures { result ≡ is_some judged.now }
{
    judged.is_some()
}

/// What was spelled, unless a connection arrived since.
fn unless_arrived(arrived: Option<Arrival>, spelled: u64) -> u64
    ensures { result ≡ (if is_some arrived then 0 else spelled) }
{
    if arrived.is_some() { 0 } else { spelled }
}

/// The watts that the last reply spelled, behind something that was sent: it spells `most`, where it is one.
fn spelled_behind(lives: bool, saying: &Saying, most: u64, before: u64) -> u64
    ensures { result ≡ (if lives then spelled_said saying.now most before else 0) }
{
    if lives {
        spelled_said(saying, most, before)
    } else {
        0
    }
}

/// The same, where a session lives.
fn spelled_said(saying: &Saying, most: u64, before: u64) -> u64
    ensures { result ≡ spelled_said saying.now most before }
{
    match saying {
        Saying::Replied { request, .. } => if shows_watts(&request.ask) {
            most
        } else {
            before
        },
        Saying::Response { .. } | Saying::Other | Saying::Unasked => before,
    }
}

/// What tells whether a post is mandated to close, behind something that was sent; for it a word was `judged`, or wasn't.
fn mandate_behind(mandate: MandateValues, judged: bool, saying: &Saying) -> MandateValues
    ensures { (steps : List ToldStep) (reading : Option Reading) (bytes : List ℕ) (taken : Bool) (said : Said) → saying.now ≡ said_as said → judged ≡ is_some reading
        → mandates.AreOf steps mandate → mandates.StayOf mandate.ac (Sends reading bytes taken said ∷ steps) result }
{
    match saying {
        Saying::Response { chosen, positive } => mandate.sent_response(judged, *chosen, *positive),
        Saying::Replied { request, reply } => mandate.sent_reply(judged, request, reply),
        Saying::Other => mandate.sent_other(judged),
        Saying::Unasked => mandate.sent_unasked(judged),
    }
}

impl KeptPost {
    /// Before any entry.
    pub fn new<C: ToldCoded>(plan: &PostPlan) -> KeptPost
        ensures { (post : ℕ) → AreOf (told_codecs C.negotiates C.reads C.encodes C.responds C.watts) plan.now post [] [] result }
    {
        let sessions = SessionValues::new();
        let contactor = ContactorValues::new();
        let mandate = MandateValues::new(is_ac(plan.mode));
        let causes = CauseValues::new::<C>();
        let course = CourseValues::new();
        KeptPost {
            sessions,
            contactor,
            mandate,
            causes,
            course,
            spelled: 0,
        }
    }

    /// The same once more.
    pub fn copied(&self) -> KeptPost
        ensures { result ≡ self.now }
    {
        KeptPost {
            sessions: self.sessions,
            contactor: self.contactor,
            mandate: self.mandate,
            causes: self.causes,
            course: self.course.copied(),
            spelled: self.spelled,
        }
    }

    /// Behind a hearing, for the post of this number, where this word comes `next`.
    pub fn heard<C: ToldCoded>(
        self,
        post: u8,
        plan: &PostPlan,
        entry: &Entry,
        heard: &Heard,
        next: &Option<NextWord>,
    ) -> KeptPost
        ensures { (past : List Entry) (steps : List ToldStep) (bytes : List ℕ) → entry.now ≡ entries.Heard heard.now bytes → AreOf (told_codecs C.negotiates C.reads C.encodes C.responds C.watts) plan.now post past steps self
            → IsNextWord (told_codecs C.negotiates C.reads C.encodes C.responds C.watts) plan.now (Hears (max (moment past) heard.now.at) (event_at post heard.now.what bytes) ∷ steps) next.now
            → AreOf (told_codecs C.negotiates C.reads C.encodes C.responds C.watts) plan.now post (entry.now ∷ past) (Hears (max (moment past) heard.now.at) (event_at post heard.now.what bytes) ∷ steps) result }
    {
        let stood = Stood {
            standing: self.contactor.standing,
            live: self.contactor.live,
        };
        let arrived = self.sessions.arrived;
        let sessions = self.sessions.behind(post, entry);
        let contactor = self.contactor.behind(post, entry);
        let course = self.course.heard(arrived, post, &heard.what);
        let comes = comes_heard::<C>(
            &course,
            &sessions,
            contactor.standing,
            plan,
            next,
            stood,
            post,
            &heard.what,
        );
        let mandate = self.mandate.heard(post, &heard.what);
        let causes = self
            .causes
            .heard::<C>(post, &heard.what, comes, contactor.live);
        KeptPost {
            sessions,
            contactor,
            mandate,
            causes,
            course,
            spelled: unless_arrived(arrived, self.spelled),
        }
    }

    /// Behind an order to its charger, for which this word was `judged`, if one was, and these watts were `shown`.
    pub fn driven<C: ToldCoded>(
        self,
        post: u8,
        plan: &PostPlan,
        entry: &Entry,
        given: &Order,
        taken: bool,
        judged: &Option<NextWord>,
        shown: u32,
        next: &Option<NextWord>,
    ) -> KeptPost
        ensures { (past : List Entry) (steps : List ToldStep) (reading : Option Reading) → entry.now ≡ entries.Drove post given.now taken
            → IsRead judged.now shown reading → AreOf (told_codecs C.negotiates C.reads C.encodes C.responds C.watts) plan.now post past steps self
            → IsNextWord (told_codecs C.negotiates C.reads C.encodes C.responds C.watts) plan.now (Does reading (Give given.now) taken ∷ steps) next.now
            → AreOf (told_codecs C.negotiates C.reads C.encodes C.responds C.watts) plan.now post (entry.now ∷ past) (Does reading (Give given.now) taken ∷ steps) result }
    {
        let KeptPost {
            sessions: before,
            contactor: stood,
            mandate,
            causes,
            course,
            spelled,
        } = self;
        let course = course.read(&before, stood.standing, plan, judged, shown);
        let sessions = before.behind(post, entry);
        let contactor = stood.behind(post, entry);
        let comes = comes_driven::<C>(
            &course,
            &sessions,
            contactor.standing,
            plan,
            next,
            *given,
            taken,
        );
        let mandate = mandate.acted(was_judged(judged));
        let causes = causes.drove::<C>(*given, comes, contactor.live);
        KeptPost {
            sessions,
            contactor,
            mandate,
            causes,
            course,
            spelled,
        }
    }

    /// Behind an answer to a datagram, for which no word is judged.
    pub fn answered<C: ToldCoded>(self, post: u8, plan: &PostPlan, entry: &Entry) -> KeptPost
        ensures { (past : List Entry) (steps : List ToldStep) (bytes : List ℕ) (taken : Bool) → entry.now ≡ entries.Answered post bytes taken
            → AreOf (told_codecs C.negotiates C.reads C.encodes C.responds C.watts) plan.now post past steps self → AreOf (told_codecs C.negotiates C.reads C.encodes C.responds C.watts) plan.now post (entry.now ∷ past) (Does None (Answer bytes) taken ∷ steps) result }
    {
        idle_acts::<C>();
        let sessions = self.sessions.behind(post, entry);
        let contactor = self.contactor.behind(post, entry);
        let mandate = self.mandate.acted(false);
        let causes = self.causes.answered::<C>(false, contactor.live);
        KeptPost {
            sessions,
            contactor,
            mandate,
            causes,
            course: self.course,
            spelled: self.spelled,
        }
    }

    /// Behind the end of its session, by the cause of this number.
    pub fn ended<C: ToldCoded>(
        self,
        post: u8,
        plan: &PostPlan,
        entry: &Entry,
        cause: u8,
    ) -> KeptPost
        ensures { (past : List Entry) (steps : List ToldStep) → entry.now ≡ entries.Ended post cause
            → AreOf (told_codecs C.negotiates C.reads C.encodes C.responds C.watts) plan.now post past steps self → AreOf (told_codecs C.negotiates C.reads C.encodes C.responds C.watts) plan.now post (entry.now ∷ past) (Does None (End cause) true ∷ steps) result }
    {
        idle_acts::<C>();
        let sessions = self.sessions.behind(post, entry);
        let contactor = self.contactor.behind(post, entry);
        let mandate = self.mandate.ended();
        let causes = self.causes.ended::<C>(false, contactor.live);
        let course = self.course.ended(cause);
        KeptPost {
            sessions,
            contactor,
            mandate,
            causes,
            course,
            spelled: 0,
        }
    }

    /// Behind bytes on its connection, for which this word was `judged`, if one was, and these watts were `shown`. They say this, and spell `most` watts
    /// where they are a reply.
    pub fn sent<C: ToldCoded>(
        self,
        post: u8,
        plan: &PostPlan,
        entry: &Entry,
        taken: bool,
        judged: &Option<NextWord>,
        shown: u32,
        saying: &Saying,
        most: u64,
        next: &Option<NextWord>,
    ) -> KeptPost
        ensures { (past : List Entry) (steps : List ToldStep) (reading : Option Reading) (bytes : List ℕ) (said : Said) → entry.now ≡ entries.Sent post bytes taken
            → IsRead judged.now shown reading → saying.now ≡ said_as said → IsMost plan.now said most → AreOf (told_codecs C.negotiates C.reads C.encodes C.responds C.watts) plan.now post past steps self
            → IsNextWord (told_codecs C.negotiates C.reads C.encodes C.responds C.watts) plan.now (Sends reading bytes taken said ∷ steps) next.now
            → AreOf (told_codecs C.negotiates C.reads C.encodes C.responds C.watts) plan.now post (entry.now ∷ past) (Sends reading bytes taken said ∷ steps) result }
    {
        let KeptPost {
            sessions: before,
            contactor: stood,
            mandate,
            causes,
            course,
            spelled,
        } = self;
        let lives = mandate.lives;
        let read = course.read(&before, stood.standing, plan, judged, shown);
        let course = read.sent(saying, taken);
        let sessions = before.behind(post, entry);
        let contactor = stood.behind(post, entry);
        let comes = comes_sent::<C>(
            &course,
            &sessions,
            contactor.standing,
            plan,
            next,
            saying,
            taken,
        );
        let mandate = mandate_behind(mandate, was_judged(judged), saying);
        let causes = causes.sent::<C>(comes, contactor.live);
        KeptPost {
            sessions,
            contactor,
            mandate,
            causes,
            course,
            spelled: spelled_behind(lives, saying, most, spelled),
        }
    }

    /// Behind an entry that is neither a hearing nor an act of this post.
    pub fn passed<C: ToldCoded>(self, post: u8, plan: &PostPlan, entry: &Entry) -> KeptPost
        ensures { (past : List Entry) (steps : List ToldStep) → is_heard entry.now ≡ false → is_act_of post entry.now ≡ false → AreOf (told_codecs C.negotiates C.reads C.encodes C.responds C.watts) plan.now post past steps self
            → AreOf (told_codecs C.negotiates C.reads C.encodes C.responds C.watts) plan.now post (entry.now ∷ past) steps result }
    {
        let sessions = self.sessions.behind(post, entry);
        let contactor = self.contactor.behind(post, entry);
        KeptPost {
            sessions,
            contactor,
            ..self
        }
    }
}
