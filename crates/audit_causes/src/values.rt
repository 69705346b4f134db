//! What is kept of one post.

ghost use Rattle.std.specs.Prelude.{◌≡◌, ◌↔◌, ℕ, Bool, true, false, not, ◌&&◌, ◌||◌, List, [], ◌∷◌, Option, IsTrue};
ghost use Rattle.charge_world.specs.declared.entry.Entry.{Entry};
ghost use Rattle.session_words.specs.declared.plan.PostPlan.{PostPlan};
ghost use Rattle.session_words.specs.declared.plan.SitePlan.{SitePlan};
ghost use Rattle.post_spec.specs.Contactors as contactors;
ghost use Rattle.post_spec.specs.Steps.{Give, Answer, End, Reading, event_at};
ghost use Rattle.told_pasts.specs.Checks as checks;
ghost use Rattle.told_pasts.specs.Checks.{IsNewest};
ghost use Rattle.told_pasts.specs.Steps.{Said, ToldStep, Hears, Does, Sends, seen_in};
ghost use Rattle.faultless_pasts.specs.Faultless.{told_codecs};
ghost use Rattle.audit_causes.specs.Values as values;
ghost use Rattle.audit_causes.specs.Values.{Comes, AreOf, IsOnly, Passes};

use charge_world::{Entry, Order, What};
use faultless_pasts::ToldCoded;

/// What is kept of a post.
#[derive(Clone, Copy)]
pub struct CauseValues {
    /// A connection came in the newest block.
    pub arrived: bool,
    /// A cause came in the session that lives.
    pub caused: bool,
    /// The first cause came while the contactor was live, in this block, and it was not ordered open since.
    pub owed: bool,
}

/// Whether a connection of a post began in a hearing.
fn comes_at(post: u8, what: &What) -> bool
    ensures { result ≡ values.came_in (event_at post what.now []) }
{
    match what {
        What::Came { post: at, .. } => *at == post,
        What::Bytes { .. }
        | What::Gone { .. }
        | What::Datagram { .. }
        | What::Plant { .. }
        | What::Tick
        | What::Over => false,
    }
}

/// Whether something is sent to the car of a post, or something is heard.
fn answers_or_hears(post: u8, entry: &Entry) -> bool
    ensures { result ≡ values.answers_or_hears post entry.now }
{
    match entry {
        Entry::Sent { post: at, .. } => *at == post,
        Entry::Heard { .. } => true,
        _ => false,
    }
}

/// Whether an order is one to open.
fn is_open(given: Order) -> bool
    ensures { result ≡ checks.is_open given }
{
    matches!(given, Order::Open)
}

/// Whether behind an order of a post to open that failed there are orders to open alone, with an entry more; `alone` says it of the past before.
pub fn opens_alone(post: u8, alone: bool, entry: &Entry) -> bool
    ensures { (past : List Entry) → alone ≡ values.opens_alone post past → result ≡ values.opens_alone post (entry.now ∷ past) }
{
    match entry {
        Entry::Drove {
            post: at,
            order,
            taken,
        } => is_open(*order) && (*at == post && !*taken || alone),
        _ => false,
    }
}

impl CauseValues {
    /// Before any step.
    pub fn new<C: ToldCoded>() -> CauseValues
        ensures { (plan : PostPlan) → AreOf (told_codecs C.negotiates C.reads C.encodes C.responds C.watts) plan [] result }
    {
        CauseValues {
            arrived: false,
            caused: false,
            owed: false,
        }
    }

    /// Behind a step.
    fn stepped(self, comes: bool, live: bool, earlier: bool, goes_on: bool) -> CauseValues
        ensures { result ≡ values.stepped comes live earlier goes_on self }
    {
        CauseValues {
            caused: comes || earlier,
            owed: comes && !earlier && live || goes_on && self.owed,
            ..self
        }
    }

    /// Behind a hearing, off the values.
    fn then(self, came: bool, comes: bool, live: bool) -> CauseValues
        ensures { result ≡ values.heard_by came comes live self }
    {
        CauseValues {
            arrived: came,
            ..self.stepped(comes, live, !self.arrived && self.caused, false)
        }
    }

    /// Behind a hearing, for the post of this number: a cause `comes` with it, or doesn't, and the contactor is `live` behind it, or isn't.
    pub fn heard<C: ToldCoded>(self, post: u8, what: &What, comes: bool, live: bool) -> CauseValues
        ensures { (plan : PostPlan) (steps : List ToldStep) (at : ℕ) (bytes : List ℕ)
            → AreOf (told_codecs C.negotiates C.reads C.encodes C.responds C.watts) plan steps self
            → (IsTrue comes ↔ Comes (told_codecs C.negotiates C.reads C.encodes C.responds C.watts) plan (Hears at (event_at post what.now bytes) ∷ steps))
            → live ≡ contactors.live (seen_in (Hears at (event_at post what.now bytes) ∷ steps))
            → AreOf (told_codecs C.negotiates C.reads C.encodes C.responds C.watts) plan (Hears at (event_at post what.now bytes) ∷ steps) result }
    {
        self.then(comes_at(post, what), comes, live)
    }

    /// Behind an order to the charger.
    pub fn drove<C: ToldCoded>(self, given: Order, comes: bool, live: bool) -> CauseValues
        ensures { (plan : PostPlan) (steps : List ToldStep) (reading : Option Reading) (taken : Bool)
            → AreOf (told_codecs C.negotiates C.reads C.encodes C.responds C.watts) plan steps self
            → (IsTrue comes ↔ Comes (told_codecs C.negotiates C.reads C.encodes C.responds C.watts) plan (Does reading (Give given) taken ∷ steps))
            → live ≡ contactors.live (seen_in (Does reading (Give given) taken ∷ steps))
            → AreOf (told_codecs C.negotiates C.reads C.encodes C.responds C.watts) plan (Does reading (Give given) taken ∷ steps) result }
    {
        self.stepped(comes, live, self.caused, !is_open(given))
    }

    /// Behind an answer to a datagram.
    pub fn answered<C: ToldCoded>(self, comes: bool, live: bool) -> CauseValues
        ensures { (plan : PostPlan) (steps : List ToldStep) (reading : Option Reading) (bytes : List ℕ) (taken : Bool)
            → AreOf (told_codecs C.negotiates C.reads C.encodes C.responds C.watts) plan steps self
            → (IsTrue comes ↔ Comes (told_codecs C.negotiates C.reads C.encodes C.responds C.watts) plan (Does reading (Answer bytes) taken ∷ steps))
            → live ≡ contactors.live (seen_in (Does reading (Answer bytes) taken ∷ steps))
            → AreOf (told_codecs C.negotiates C.reads C.encodes C.responds C.watts) plan (Does reading (Answer bytes) taken ∷ steps) result }
    {
        self.stepped(comes, live, self.caused, true)
    }

    /// Behind the end of the session.
    pub fn ended<C: ToldCoded>(self, comes: bool, live: bool) -> CauseValues
        ensures { (plan : PostPlan) (steps : List ToldStep) (reading : Option Reading) (cause : ℕ) (taken : Bool)
            → AreOf (told_codecs C.negotiates C.reads C.encodes C.responds C.watts) plan steps self
            → (IsTrue comes ↔ Comes (told_codecs C.negotiates C.reads C.encodes C.responds C.watts) plan (Does reading (End cause) taken ∷ steps))
            → live ≡ contactors.live (seen_in (Does reading (End cause) taken ∷ steps))
            → AreOf (told_codecs C.negotiates C.reads C.encodes C.responds C.watts) plan (Does reading (End cause) taken ∷ steps) result }
    {
        self.stepped(comes, live, false, true)
    }

    /// Behind bytes that were sent.
    pub fn sent<C: ToldCoded>(self, comes: bool, live: bool) -> CauseValues
        ensures { (plan : PostPlan) (steps : List ToldStep) (reading : Option Reading) (bytes : List ℕ) (taken : Bool) (said : Said)
            → AreOf (told_codecs C.negotiates C.reads C.encodes C.responds C.watts) plan steps self
            → (IsTrue comes ↔ Comes (told_codecs C.negotiates C.reads C.encodes C.responds C.watts) plan (Sends reading bytes taken said ∷ steps))
            → live ≡ contactors.live (seen_in (Sends reading bytes taken said ∷ steps))
            → AreOf (told_codecs C.negotiates C.reads C.encodes C.responds C.watts) plan (Sends reading bytes taken said ∷ steps) result }
    {
        self.stepped(comes, live, self.caused, true)
    }

    /// Whether the third check fails at an entry for the post of this number: an Open is owed to it before the entry, and that sends to its car or
    /// is a hearing; or the entry is the `last` one, an Open is owed behind it (`later`), and the trace doesn't end with orders to open `alone`
    /// behind one of this post that failed.
    pub fn passes_cause<C: ToldCoded>(
        &self,
        later: &CauseValues,
        post: u8,
        entry: &Entry,
        last: bool,
        alone: bool,
    ) -> bool
        ensures { (site : SitePlan) (plan : PostPlan) (earlier : List Entry) (behind : List Entry) (steps : List ToldStep) (steps_later : List ToldStep)
            → IsOnly (told_codecs C.negotiates C.reads C.encodes C.responds C.watts) site earlier post plan steps
            → IsOnly (told_codecs C.negotiates C.reads C.encodes C.responds C.watts) site (entry.now ∷ earlier) post plan steps_later
            → AreOf (told_codecs C.negotiates C.reads C.encodes C.responds C.watts) plan steps self.now
            → AreOf (told_codecs C.negotiates C.reads C.encodes C.responds C.watts) plan steps_later later.now
            → (IsTrue last ↔ IsNewest behind) → alone ≡ values.opens_alone post (entry.now ∷ earlier)
            → (IsTrue result ↔ Passes (told_codecs C.negotiates C.reads C.encodes C.responds C.watts) site earlier entry.now behind post) }
    {
        self.passes(later, post, entry, last, alone)
    }

    /// The same, off the values.
    fn passes(&self, later: &CauseValues, post: u8, entry: &Entry, last: bool, alone: bool) -> bool
        ensures { result ≡ values.passes_by post entry.now last alone self.now later.now }
    {
        answers_or_hears(post, entry) && self.owed || last && later.owed && !alone
    }
}
