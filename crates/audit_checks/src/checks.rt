//! The checks.

ghost use Rattle.std.specs.Prelude.{◌≡◌, ◌↔◌, List, is_some, IsTrue};
ghost use Rattle.charge_world.specs.declared.entry.Entry.{Entry};
ghost use Rattle.session_words.specs.declared.plan.PostPlan.{PostPlan};
ghost use Rattle.session_words.specs.declared.plan.SitePlan.{SitePlan};
ghost use Rattle.told_pasts.specs.Checks as checks;
ghost use Rattle.told_pasts.specs.Steps.{ToldStep};
ghost use Rattle.faultless_pasts.specs.Faultless.{told_codecs};
ghost use Rattle.audit_contactors.specs.Site as contactors;
ghost use Rattle.audit_checks.specs.Around as places;
ghost use Rattle.audit_checks.specs.Checks.{number, FailsOf};
ghost use Rattle.audit_checks.specs.Due as due;

use crate::around::Around;
use audit_contactors::ContactorValues;
use audit_course::{CourseValues, Saying};
use audit_posts::{About, KeptPost};
use charge_world::{Entry, Order};
use faultless_pasts::ToldCoded;
use session_rules::is_accepted;
use session_words::Standing;

/// The ten checks. What each of them means where it fails stands in `told_pasts`.
#[derive(Clone, Copy, PartialEq, Eq)]
pub enum Check {
    /// A contactor is ordered closed that isn't mandated to be.
    ClosesUnmandated,
    /// A FAILED reply is sent while the contactor is live.
    FailsLive,
    /// What ends a session didn't open a live contactor first.
    PassesCause,
    /// An order failed, and none to open came first in the next block.
    ForgetsOpen,
    /// A contactor stays closed behind a block that isn't mandated to be.
    StaysClosed,
    /// The watts of all posts pass the limit.
    PassesLimit,
    /// A reply has other watts than those that the post was told.
    SpellsOthers,
    /// A contactor is live at the end.
    EndsLive,
    /// What is sent answers no request.
    AnswersNothing,
    /// A word is left at the end of a block.
    LeavesWord,
}

/// Whether an order is one to close.
fn is_close(given: Order) -> bool
    ensures { result ≡ places.is_close given }
{
    matches!(given, Order::Close)
}

/// Whether an entry orders a contactor closed, at whichever post.
fn closes(entry: &Entry) -> bool
    ensures { result ≡ due.closes entry.now }
{
    match entry {
        Entry::Drove { order, .. } => is_close(*order),
        _ => false,
    }
}

/// Whether an entry sends bytes to a car.
fn sends(entry: &Entry) -> bool
    ensures { result ≡ due.sends entry.now }
{
    matches!(entry, Entry::Sent { .. })
}

/// Whether an entry is an act of a post.
fn acts(entry: &Entry) -> bool
    ensures { result ≡ due.acts entry.now }
{
    matches!(
        entry,
        Entry::Sent { .. } | Entry::Answered { .. } | Entry::Drove { .. } | Entry::Ended { .. }
    )
}

/// Whether an entry is a hearing.
fn is_heard(entry: &Entry) -> bool
    ensures { result ≡ checks.is_heard entry.now }
{
    matches!(entry, Entry::Heard { .. })
}

/// Whether an entry orders the contactor of a post closed.
fn closes_at(post: u8, entry: &Entry) -> bool
    ensures { result ≡ places.closes_at post entry.now }
{
    match entry {
        Entry::Drove {
            post: at,
            order,
            ..
        } => *at == post && is_close(*order),
        _ => false,
    }
}

/// Whether an entry sends bytes to the car of a post.
fn sends_at(post: u8, entry: &Entry) -> bool
    ensures { result ≡ places.sends_at post entry.now }
{
    match entry {
        Entry::Sent { post: at, .. } => *at == post,
        _ => false,
    }
}

/// Whether an entry is an act of a post.
fn is_act_of(post: u8, entry: &Entry) -> bool
    ensures { result ≡ checks.is_act_of post entry.now }
{
    match entry {
        Entry::Sent { post: at, .. } => *at == post,
        Entry::Answered { post: at, .. } => *at == post,
        Entry::Drove { post: at, .. } => *at == post,
        Entry::Ended { post: at, .. } => *at == post,
        _ => false,
    }
}

/// Whether an entry is an order to open.
fn opens(entry: &Entry) -> bool
    ensures { result ≡ checks.opens entry.now }
{
    matches!(
        entry,
        Entry::Drove {
            order: Order::Open,
            ..
        }
    )
}

/// Whether bytes are a FAILED reply.
fn has_failed(saying: &Saying) -> bool
    ensures { result ≡ places.has_failed saying.now }
{
    match saying {
        Saying::Response { positive, .. } => !*positive,
        Saying::Replied { reply, .. } => !is_accepted(reply.code),
        Saying::Other | Saying::Unasked => false,
    }
}

/// Whether bytes are a reply of the OK class.
fn is_good(saying: &Saying) -> bool
    ensures { result ≡ places.is_good saying.now }
{
    match saying {
        Saying::Replied { reply, .. } => is_accepted(reply.code),
        Saying::Response { .. } | Saying::Other | Saying::Unasked => false,
    }
}

/// Whether bytes answer no word.
fn is_no_answer(saying: &Saying) -> bool
    ensures { result ≡ places.is_no_answer saying.now }
{
    match saying {
        Saying::Other | Saying::Unasked => true,
        Saying::Response { .. } | Saying::Replied { .. } => false,
    }
}

/// Whether a post did nothing behind a block that ended with a failed order.
fn is_forgotten(values: &ContactorValues) -> bool
    ensures { result ≡ contactors.is_forgotten values.now }
{
    !values.acted && matches!(values.stood, Standing::MustOpen)
}

/// Whether its contactor is live, and nothing opened it at the end.
fn is_left(values: &ContactorValues) -> bool
    ensures { result ≡ contactors.is_left values.now }
{
    values.live && !values.ends_opened
}

/// Whether a session lives.
fn is_talking(course: &CourseValues) -> bool
    ensures { result ≡ is_some course.now.session }
{
    course.session.is_some()
}

impl Check {
    /// Its number, from 1 to 10.
    pub fn number(self) -> u8
        ensures { result ≡ number self }
    {
        match self {
            Check::ClosesUnmandated => 1,
            Check::FailsLive => 2,
            Check::PassesCause => 3,
            Check::ForgetsOpen => 4,
            Check::StaysClosed => 5,
            Check::PassesLimit => 6,
            Check::SpellsOthers => 7,
            Check::EndsLive => 8,
            Check::AnswersNothing => 9,
            Check::LeavesWord => 10,
        }
    }

    /// Whether it may fail at an entry, by what that is.
    fn is_due(self, entry: &Entry, ends: bool, last: bool, above: bool) -> bool
        ensures { result ≡ due.may_fail self entry.now ends last above }
    {
        match self {
            Check::ClosesUnmandated => closes(entry),
            Check::FailsLive | Check::SpellsOthers | Check::AnswersNothing => sends(entry),
            Check::PassesCause => last || sends(entry) || is_heard(entry),
            Check::ForgetsOpen => ends || acts(entry) && !opens(entry),
            Check::StaysClosed | Check::LeavesWord => ends,
            Check::PassesLimit => above,
            Check::EndsLive => last,
        }
    }

    /// Whether it may fail at an entry at all, for any post: at another it need not be looked for. The entry `ends` its block, is the `last` of the trace,
    /// and behind it the watts of all posts are `above` the limit of the site, or not.
    pub fn may_fail<C: ToldCoded>(self, entry: &Entry, ends: bool, last: bool, above: bool) -> bool
        ensures { due.IsDue (told_codecs C.negotiates C.reads C.encodes C.responds C.watts) self entry.now ends last above result }
    {
        self.is_due(entry, ends, last, above)
    }

    /// Whether it fails, off the values; the post was `mandated` to close before the entry, `stays` so behind it, and an order to open that it owes was
    /// passed by, or not.
    fn fails_by(
        self,
        post: u8,
        entry: &Entry,
        before: &KeptPost,
        later: &KeptPost,
        saying: &Saying,
        around: Around,
        mandated: bool,
        stays: bool,
        passes: bool,
    ) -> bool
        ensures { result ≡ places.fails_by self post entry.now before.now later.now saying.now around mandated stays passes }
    {
        match self {
            Check::ClosesUnmandated => closes_at(post, entry) && !mandated,
            Check::FailsLive => {
                sends_at(post, entry) && has_failed(saying) && before.contactor.live
            }
            Check::PassesCause => passes,
            Check::ForgetsOpen => {
                is_act_of(post, entry)
                    && !opens(entry)
                    && around.begun
                    && is_forgotten(&before.contactor)
                    || around.ends && is_forgotten(&later.contactor)
            }
            Check::StaysClosed => {
                around.ends && later.contactor.closed && !later.contactor.opened_in_vain && !stays
            }
            Check::PassesLimit => around.above,
            Check::SpellsOthers => {
                sends_at(post, entry)
                    && is_good(saying)
                    && is_talking(&later.course)
                    && !around.writes
            }
            Check::EndsLive => around.last && is_left(&later.contactor),
            Check::AnswersNothing => sends_at(post, entry) && is_no_answer(saying),
            Check::LeavesWord => around.left,
        }
    }

    /// Whether it fails at an entry for the post of this number, of which this is kept `before` the entry and behind it (`later`). So much is told of the
    /// entry: what it was `about`, and what stands `around` it.
    pub fn fails<C: ToldCoded>(
        self,
        post: u8,
        entry: &Entry,
        before: &KeptPost,
        later: &KeptPost,
        about: &About,
        around: Around,
    ) -> bool
        ensures { (site : SitePlan) (plan : PostPlan) (earlier : List Entry) (behind : List Entry) (steps : List ToldStep) (after : List ToldStep)
            → places.AreSteps (told_codecs C.negotiates C.reads C.encodes C.responds C.watts) site plan post earlier entry.now about.now before.now later.now steps after
            → places.IsAround (told_codecs C.negotiates C.reads C.encodes C.responds C.watts) site plan post earlier entry.now behind steps after around
            → (IsTrue result ↔ FailsOf (told_codecs C.negotiates C.reads C.encodes C.responds C.watts) site earlier entry.now behind post self) }
    {
        let mandated = before.mandate.is_mandated::<C>(around.starting);
        let stays = later.mandate.is_mandated::<C>(around.starts);
        let passes = before
            .causes
            .passes_cause::<C>(&later.causes, post, entry, around.last, around.alone);
        self.fails_by(
            post,
            entry,
            before,
            later,
            &about.saying,
            around,
            mandated,
            stays,
            passes,
        )
    }
}
