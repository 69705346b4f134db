//! The posts of a site.

ghost use Rattle.std.specs.Prelude.{◌≡◌, ◌≤◌, ◌<◌, ◌+◌, ℕ, List, [], length, All, IfOk};
ghost use Rattle.session_words.specs.declared.plan.PostPlan.{PostPlan};
ghost use Rattle.faultless_pasts.specs.Faultless.{told_codecs};
ghost use Rattle.audit_causes.specs.Values.{fails_or};
ghost use Rattle.audit_streams.specs.Streams.{IsEven};
ghost use Rattle.audited_posts.specs.Posts.{IsShort};
ghost use Rattle.trace_audit.specs.Seats.{IsAt, IsSeat, Passing};
ghost use Rattle.trace_audit.specs.declared.seats.Seat.{Seat};

use audit_course::Saying;
use audit_posts::{About, KeptPost};
use audit_streams::{NoMemory, ToldReader};
use audited_posts::{AuditedPost, Passed};
use charge_world::{Entry, Order};
use session_words::PostPlan;
use std::alloc::Global;

/// A post of the site.
#[derive(Drop)]
pub(crate) struct Seat {
    pub post: AuditedPost,
    /// What went by at it with the newest entry.
    pub passed: Passed,
    /// The trace ends in orders to open alone, behind one of the post that failed.
    pub alone: bool,
}

/// Whether a trace ends in orders to open alone behind one of the post that failed, with this entry, where it did so before or not.
fn alone_behind(post: u8, entry: &Entry, alone: bool) -> bool
    ensures { result ≡ fails_or post entry.now alone }
{
    match entry {
        Entry::Drove {
            post: at,
            order: Order::Open,
            taken,
        } => *at == post && !*taken || alone,
        _ => false,
    }
}

/// Nothing went by at a post of this plan.
fn nothing_passed<R: ToldReader>(plan: &PostPlan) -> Passed {
    Passed {
        before: KeptPost::new::<R>(plan),
        starting: false,
        about: About {
            judged: None,
            shown: 0,
            saying: Saying::Unasked,
            most: 0,
            next: None,
        },
    }
}

impl Seat {
    /// Before any entry. It takes the memory of a stream.
    pub(crate) fn make<R: ToldReader>(alloc: Global, plan: &PostPlan) -> Result<Seat, NoMemory>
        ensures { IfOk result (λ s. ((k : ℕ) → IsSeat (told_codecs R.negotiates R.reads R.encodes R.responds R.watts) plan.now k [] [] s) × IsEven s.post.stream) }
    {
        let post = AuditedPost::make::<R>(alloc, plan)?;
        Ok(Seat {
            post,
            passed: nothing_passed::<R>(plan),
            alone: false,
        })
    }

    /// Takes the next entry of the trace, for the post of this number, whose word is `shown` so many watts.
    fn pass<R: ToldReader>(
        &mut self,
        reader: &mut R,
        post: u8,
        plan: &PostPlan,
        entry: &Entry,
        shown: u32,
    )
        requires nominal { 0 < plan.now.nominal }
        requires short { IsShort entry.now }
        ensures { Passing (told_codecs R.negotiates R.reads R.encodes R.responds R.watts) plan.now post entry.now shown self.old self.new }
    {
        self.passed = self.post.behind(reader, post, plan, entry, shown);
        self.alone = alone_behind(post, entry, self.alone);
    }
}

/// All posts of a site take the next entry of the trace; the word of the one that it is an act of is `shown` so many watts.
pub(crate) fn pass_all<R: ToldReader>(
    seats: &mut [Seat],
    reader: &mut R,
    plans: &[PostPlan],
    entry: &Entry,
    shown: u32,
)
    requires count { length seats.old ≡ length plans.now }
    requires few { length plans.now ≤ 8 }
    requires nominal { All (λ plan. 0 < plan.nominal) plans.now }
    requires short { IsShort entry.now }
    ensures { (i : ℕ) (plan : PostPlan) (old new : Seat) → IsAt plans.now i plan → IsAt seats.old i old → IsAt seats.new i new
        → Passing (told_codecs R.negotiates R.reads R.encodes R.responds R.watts) plan (i + 1) entry.now shown old new }
{
    for i in 0..seats.len() {
        let plan = &plans[i];
        seats[i].pass(reader, i as u8 + 1, plan, entry, shown);
    }
}
