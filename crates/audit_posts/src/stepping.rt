//! One entry of a trace, of whichever kind it is.

ghost use Rattle.std.specs.Prelude.{List, ◌∷◌};
ghost use Rattle.charge_world.specs.declared.entry.Entry.{Entry};
ghost use Rattle.told_pasts.specs.Steps.{ToldStep};
ghost use Rattle.faultless_pasts.specs.Faultless.{told_codecs};
ghost use Rattle.audit_posts.specs.Steps.{StepIs};
ghost use Rattle.audit_posts.specs.Values.{AreOf};

use crate::values::KeptPost;
use audit_course::{NextWord, Saying};
use charge_world::Entry;
use faultless_pasts::ToldCoded;
use session_words::PostPlan;

/// What is told of an entry beside itself.
#[derive(Drop)]
pub struct About {
    /// The word that was judged for an act, if one was.
    pub judged: Option<NextWord>,
    /// The watts that it was shown.
    pub shown: u32,
    /// What bytes that were sent say.
    pub saying: Saying,
    /// The greatest watts that they spell, where they are a reply.
    pub most: u64,
    /// The word that comes next behind the entry, if one does.
    pub next: Option<NextWord>,
}

impl KeptPost {
    /// Behind an entry, the next of the trace, for the post of this number, of which this is told.
    pub fn behind<C: ToldCoded>(
        self,
        post: u8,
        plan: &PostPlan,
        entry: &Entry,
        about: &About,
    ) -> KeptPost
        ensures { (past : List Entry) (steps : List ToldStep) (later : List ToldStep) → AreOf (told_codecs C.negotiates C.reads C.encodes C.responds C.watts) plan.now post past steps self
            → StepIs (told_codecs C.negotiates C.reads C.encodes C.responds C.watts) plan.now post past steps about.now entry.now later
            → AreOf (told_codecs C.negotiates C.reads C.encodes C.responds C.watts) plan.now post (entry.now ∷ past) later result }
    {
        match entry {
            Entry::Heard { heard, .. } => self.heard::<C>(post, plan, entry, heard, &about.next),
            Entry::Sent {
                post: at,
                taken,
                ..
            } => if *at == post {
                self.sent::<C>(
                    post,
                    plan,
                    entry,
                    *taken,
                    &about.judged,
                    about.shown,
                    &about.saying,
                    about.most,
                    &about.next,
                )
            } else {
                self.passed::<C>(post, plan, entry)
            },
            Entry::Answered { post: at, .. } => if *at == post {
                self.answered::<C>(post, plan, entry)
            } else {
                self.passed::<C>(post, plan, entry)
            },
            Entry::Drove {
                post: at,
                order,
                taken,
            } => if *at == post {
                self.driven::<C>(
                    post,
                    plan,
                    entry,
                    order,
                    *taken,
                    &about.judged,
                    about.shown,
                    &about.next,
                )
            } else {
                self.passed::<C>(post, plan, entry)
            },
            Entry::Ended { post: at, cause } => if *at == post {
                self.ended::<C>(post, plan, entry, *cause)
            } else {
                self.passed::<C>(post, plan, entry)
            },
            Entry::Lost | Entry::Dialed { .. } => self.passed::<C>(post, plan, entry),
        }
    }
}
