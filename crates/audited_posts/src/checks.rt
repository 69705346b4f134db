//! The checks at an entry, for one post.

ghost use Rattle.std.specs.Prelude.{◌↔◌, ℕ, List, ◌∷◌, IsTrue};
ghost use Rattle.charge_world.specs.declared.entry.Entry.{Entry};
ghost use Rattle.session_words.specs.declared.plan.PostPlan.{PostPlan};
ghost use Rattle.session_words.specs.declared.plan.SitePlan.{SitePlan};
ghost use Rattle.told_pasts.specs.Steps.{ToldStep};
ghost use Rattle.faultless_pasts.specs.Faultless.{told_codecs};
ghost use Rattle.audit_checks.specs.Around.{AreSteps, IsAround};
ghost use Rattle.audit_checks.specs.Checks.{FailsOf};
ghost use Rattle.audit_mandates.specs.Values.{Starts};
ghost use Rattle.audited_posts.specs.Posts.{AreOf};
ghost use Rattle.audited_posts.specs.Places.{IsPlace};

use crate::posts::{AuditedPost, Passed};
use audit_checks::{Around, Check};
use audit_readings::{is_left, starts};
use audit_streams::ToldReader;
use charge_world::Entry;

/// What is told of the place of an entry.
#[derive(Clone, Copy)]
pub struct Place {
    /// Something was heard before the entry.
    pub begun: bool,
    /// The entry is the last of its block.
    pub ends: bool,
    /// It is the last of the trace.
    pub last: bool,
    /// With it the trace ends in orders to open alone, behind one of the post that failed.
    pub alone: bool,
    /// Where it is a reply, its watts are those that the post was told.
    pub writes: bool,
    /// Behind it the watts of all posts are above the limit of the site.
    pub above: bool,
}

impl AuditedPost {
    /// What stands around an entry behind which the post is so.
    fn around<R: ToldReader>(&self, starting: bool, place: Place) -> Around
        ensures { (site : SitePlan) (plan : PostPlan) (k : ℕ) (earlier : List Entry) (e : Entry) (behind : List Entry) (steps : List ToldStep) (after : List ToldStep)
            → AreOf (told_codecs R.negotiates R.reads R.encodes R.responds R.watts) plan k (e ∷ earlier) after self.now
            → (IsTrue starting ↔ Starts (told_codecs R.negotiates R.reads R.encodes R.responds R.watts) plan steps)
            → IsPlace (told_codecs R.negotiates R.reads R.encodes R.responds R.watts) site plan k earlier e behind after place
            → IsAround (told_codecs R.negotiates R.reads R.encodes R.responds R.watts) site plan k earlier e behind steps after result }
    {
        Around {
            starting,
            starts: starts::<R>(&self.stream),
            begun: place.begun,
            ends: place.ends,
            last: place.last,
            alone: place.alone,
            writes: place.writes,
            above: place.above,
            left: is_left::<R>(&self.stream, place.ends),
        }
    }

    /// Whether a check fails at an entry for the post of this number, which is so behind it, where that `passed` with it, and the entry stands at this
    /// `place`.
    pub fn fails<R: ToldReader>(
        &self,
        check: Check,
        post: u8,
        entry: &Entry,
        passed: &Passed,
        place: Place,
    ) -> bool
        ensures { (site : SitePlan) (plan : PostPlan) (earlier : List Entry) (behind : List Entry) (steps : List ToldStep) (after : List ToldStep)
            → AreSteps (told_codecs R.negotiates R.reads R.encodes R.responds R.watts) site plan post earlier entry.now passed.now.about passed.now.before self.now.kept steps after
            → AreOf (told_codecs R.negotiates R.reads R.encodes R.responds R.watts) plan post (entry.now ∷ earlier) after self.now
            → (IsTrue passed.now.starting ↔ Starts (told_codecs R.negotiates R.reads R.encodes R.responds R.watts) plan steps)
            → IsPlace (told_codecs R.negotiates R.reads R.encodes R.responds R.watts) site plan post earlier entry.now behind after place
            → (IsTrue result ↔ FailsOf (told_codecs R.negotiates R.reads R.encodes R.responds R.watts) site earlier entry.now behind post check) }
    {
        let around = self.around::<R>(passed.starting, place);
        check.fails::<R>(
            post,
            entry,
            &passed.before,
            &self.kept,
            &passed.about,
            around,
        )
    }
}
