//! One post.

ghost use Rattle.std.specs.Prelude.{◌≡◌, ◌<◌, ◌↔◌, ℕ, List, [], ◌∷◌, IfOk, IsTrue, if◌then◌else◌};
ghost use Rattle.charge_world.specs.declared.entry.Entry.{Entry};
ghost use Rattle.post_spec.specs.Codecs.{codecs};
ghost use Rattle.post_spec.specs.Steps.{seen};
ghost use Rattle.told_pasts.specs.Site.{ToldPost, Shows};
ghost use Rattle.told_pasts.specs.Steps.{ToldStep, seen_in};
ghost use Rattle.faultless_pasts.specs.Faultless.{told_codecs};
ghost use Rattle.audit_course.specs.Asking.{IsShare};
ghost use Rattle.audit_mandates.specs.Values.{Starts};
ghost use Rattle.audit_streams.specs.Streams as streams;
ghost use Rattle.audit_checks.specs.Around.{sends_at};
ghost use Rattle.audit_course.specs.Values.{course_of};
ghost use Rattle.audited_posts.specs.Posts.{AreOf, JudgesAt, ShownAt, TellsLast, IsToldBehind, SaysAt, IsShort, IsFree, StreamsOn, Passes};

use audit_course::{CourseValues, NextWord, Saying};
use audit_posts::{About, KeptPost};
use audit_readings::starts;
use audit_records::{Answer, answer_in, judged_at_order, judged_at_reply, next_word};
use audit_streams::{NoMemory, ToldReader, ToldStream, ToldWatts};
use charge_world::{Dialect, Entry};
use session_words::PostPlan;
use std::alloc::Global;
use std::mem;

/// One post as it is audited.
#[derive(Drop)]
pub struct AuditedPost {
    /// All that is kept of it.
    pub kept: KeptPost,
    /// The stream of its session.
    pub stream: ToldStream,
    /// Where its last act is a reply, the watts of that are those that it was told.
    pub writes: bool,
}

/// What went by at a post with an entry.
#[derive(Drop)]
pub struct Passed {
    /// What was kept of the post before.
    pub before: KeptPost,
    /// PowerDelivery Start was the first word without a reply before.
    pub starting: bool,
    /// What the entry was about.
    pub about: About,
}

/// No bytes.
fn without_bytes() -> Answer {
    Answer {
        saying: Saying::Unasked,
        most: 0,
        writes: true,
    }
}

/// Watts as no post is told more of them.
fn bounded(told: u32) -> u32
    ensures small { result < 32768000 }
    ensures same { told < 32768000 → result ≡ told }
{
    told.min(32_767_999)
}

/// What a session was told last.
fn told_in(course: &CourseValues) -> ToldWatts
    ensures small { result.watts < 32768000 }
    ensures told { TellsLast (course_of course.now).session result }
{
    match &course.session {
        Some(talk) => ToldWatts {
            watts: bounded(talk.told),
            dialect: talk.dialect,
        },
        None => ToldWatts {
            watts: 0,
            dialect: Dialect::Iso,
        },
    }
}

/// Whether an entry sends bytes to the car of a post.
fn sends_at(post: u8, entry: &Entry) -> bool
    ensures { result ≡ sends_at post entry.now }
{
    match entry {
        Entry::Sent { post: at, .. } => *at == post,
        _ => false,
    }
}

/// Whether the last act of a post writes what it was told, behind an entry that `writes` it, where that is a reply of the post, and where it was so before.
fn writes_behind(post: u8, entry: &Entry, writes: bool, before: bool) -> bool
    ensures { result ≡ (if sends_at post entry.now then writes else before) }
{
    if sends_at(post, entry) {
        writes
    } else {
        before
    }
}

impl AuditedPost {
    /// Before any entry. It takes the memory of a stream.
    pub fn make<R: ToldReader>(alloc: Global, plan: &PostPlan) -> Result<AuditedPost, NoMemory>
        ensures { IfOk result (λ v. ((k : ℕ) → AreOf (told_codecs R.negotiates R.reads R.encodes R.responds R.watts) plan.now k [] [] v) × streams.IsEven v.stream) }
    {
        let stream = ToldStream::make::<R>(alloc)?;
        Ok(AuditedPost {
            kept: KeptPost::new::<R>(plan),
            stream,
            writes: true,
        })
    }

    /// The word that an entry judges for the post of this number, if it does.
    pub fn judged<R: ToldReader>(&self, post: u8, entry: &Entry) -> Option<NextWord>
        ensures { (plan : PostPlan) (past : List Entry) (steps : List ToldStep) → AreOf (told_codecs R.negotiates R.reads R.encodes R.responds R.watts) plan post past steps self.now
            → JudgesAt (told_codecs R.negotiates R.reads R.encodes R.responds R.watts) plan post steps entry.now result }
    {
        match entry {
            Entry::Sent { post: at, .. } => if *at == post {
                judged_at_reply::<R>(&self.stream, &self.kept.mandate)
            } else {
                None
            },
            Entry::Drove {
                post: at,
                order,
                ..
            } => if *at == post {
                judged_at_order::<R>(&self.stream, &self.kept, order)
            } else {
                None
            },
            Entry::Heard { .. }
            | Entry::Lost
            | Entry::Answered { .. }
            | Entry::Dialed { .. }
            | Entry::Ended { .. } => None,
        }
    }

    /// The watts that the post asks for with the word that an entry judges, where that is shown a share of what the site has.
    pub fn asks<R: ToldReader>(&self, post: u8, plan: &PostPlan, entry: &Entry) -> Option<u32>
        ensures { (limit : ℕ) (before behind : List ToldPost) (past : List Entry) (steps : List ToldStep) (shown : ℕ)
            → AreOf (told_codecs R.negotiates R.reads R.encodes R.responds R.watts) plan.now post past steps self.now → IsShare (Shows limit before behind) result shown
            → ShownAt (told_codecs R.negotiates R.reads R.encodes R.responds R.watts) (Shows limit before behind) plan.now post steps entry.now shown }
    {
        let judged = self.judged::<R>(post, entry);
        self.kept.course.asks(
            &self.kept.sessions,
            self.kept.contactor.standing,
            plan,
            &judged,
        )
    }

    /// What bytes say that an entry sends at the post of this number, which was `told` these watts.
    fn answer<R: ToldReader>(
        &self,
        reader: &mut R,
        post: u8,
        plan: &PostPlan,
        entry: &Entry,
        told: ToldWatts,
    ) -> Answer
        requires told { told.watts < 32768000 }
        requires nominal { 0 < plan.now.nominal }
        ensures { (past : List Entry) (steps : List ToldStep) → AreOf (told_codecs R.negotiates R.reads R.encodes R.responds R.watts) plan.now post past steps self.now → streams.IsEven self.now.stream
            → SaysAt (told_codecs R.negotiates R.reads R.encodes R.responds R.watts) plan.now told post (seen_in steps) entry.now result }
    {
        match entry {
            Entry::Sent {
                post: at,
                bytes,
                ..
            } => if *at == post {
                answer_in(&self.stream, reader, plan, told, bytes.bytes())
            } else {
                without_bytes()
            },
            Entry::Heard { .. }
            | Entry::Lost
            | Entry::Answered { .. }
            | Entry::Drove { .. }
            | Entry::Dialed { .. }
            | Entry::Ended { .. } => without_bytes(),
        }
    }

    /// What the post is told behind an act for which this word was `judged`, if one was, and `shown` so many watts.
    fn told_behind<R: ToldReader>(
        &self,
        plan: &PostPlan,
        judged: &Option<NextWord>,
        shown: u32,
    ) -> ToldWatts
        ensures small { result.watts < 32768000 }
        ensures told { (k : ℕ) (past : List Entry) (steps : List ToldStep) → AreOf (told_codecs R.negotiates R.reads R.encodes R.responds R.watts) plan.now k past steps self.now
            → IsToldBehind plan.now steps judged.now shown result }
    {
        let course = self.kept.course.copied().read(
            &self.kept.sessions,
            self.kept.contactor.standing,
            plan,
            judged,
            shown,
        );
        told_in(&course)
    }

    /// Takes the next entry of the trace, for the post of this number, whose word is `shown` so many watts. A hearing has at most 4,096 bytes; no word is left
    /// before it, and no more was sent than was asked.
    pub fn behind<R: ToldReader>(
        &mut self,
        reader: &mut R,
        post: u8,
        plan: &PostPlan,
        entry: &Entry,
        shown: u32,
    ) -> Passed
        requires nominal { 0 < plan.now.nominal }
        requires short { IsShort entry.now }
        ensures before { result.before ≡ self.old.kept }
        ensures starting { (past : List Entry) (steps : List ToldStep) → AreOf (told_codecs R.negotiates R.reads R.encodes R.responds R.watts) plan.now post past steps self.old
            → (IsTrue result.starting ↔ Starts (told_codecs R.negotiates R.reads R.encodes R.responds R.watts) plan.now steps) }
        ensures passes { (limit : ℕ) (before behind : List ToldPost) (past : List Entry) (steps : List ToldStep)
            → AreOf (told_codecs R.negotiates R.reads R.encodes R.responds R.watts) plan.now post past steps self.old → streams.IsEven self.old.stream
            → IsFree (told_codecs R.negotiates R.reads R.encodes R.responds R.watts) plan.now post past entry.now
            → ShownAt (told_codecs R.negotiates R.reads R.encodes R.responds R.watts) (Shows limit before behind) plan.now post steps entry.now shown
            → Passes (told_codecs R.negotiates R.reads R.encodes R.responds R.watts) (Shows limit before behind) plan.now post past steps entry.now result.about self.new }
    {
        let starting = starts::<R>(&self.stream);
        let judged = self.judged::<R>(post, entry);
        let told = self.told_behind::<R>(plan, &judged, shown);
        let Answer {
            saying,
            most,
            writes,
        } = self.answer(reader, post, plan, entry, told);
        pass(&mut self.stream, reader, post, plan, entry);
        let next = next_word(&self.stream, reader, plan);
        let about = About {
            judged,
            shown,
            saying,
            most,
            next,
        };
        let before = self.kept.copied();
        let kept = mem::replace(&mut self.kept, KeptPost::new::<R>(plan));
        self.kept = kept.behind::<R>(post, plan, entry, &about);
        self.writes = writes_behind(post, entry, writes, self.writes);
        Passed {
            before,
            starting,
            about,
        }
    }
}

/// The stream of the post of this number behind an entry.
fn pass<R: ToldReader>(
    stream: &mut ToldStream,
    reader: &mut R,
    post: u8,
    plan: &PostPlan,
    entry: &Entry,
)
    requires { IsShort entry.now }
    ensures { (past : List Entry) → streams.AreOf (codecs R.negotiates R.reads R.encodes) plan.now.dialects.items (seen post past) stream.old → streams.IsEven stream.old
        → IsFree (told_codecs R.negotiates R.reads R.encodes R.responds R.watts) plan.now post past entry.now
        → StreamsOn (codecs R.negotiates R.reads R.encodes) plan.now.dialects.items post past entry.now stream.new }
{
    match entry {
        Entry::Heard { heard, bytes } => {
            stream.heard(reader, plan, post, &heard.what, bytes.bytes());
        }
        Entry::Sent { post: at, .. } => {
            if *at == post {
                stream.sent(reader, plan);
            }
        }
        Entry::Answered { post: at, .. } => {
            if *at == post {
                stream.answered::<R>();
            }
        }
        Entry::Drove {
            post: at,
            order,
            taken,
        } => {
            if *at == post {
                stream.ordered::<R>(order, *taken);
            }
        }
        Entry::Ended { post: at, .. } => {
            if *at == post {
                stream.ended::<R>();
            }
        }
        Entry::Lost | Entry::Dialed { .. } => {}
    }
}
