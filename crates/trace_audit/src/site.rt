//! The site of a trace in which no check failed so far.

ghost use Rattle.std.specs.Prelude.{◌≡◌, ◌||◌, List, [], ◌∷◌, length, None, IfOk};
ghost use Rattle.charge_world.specs.declared.entry.Entry.{Entry};
ghost use Rattle.trace_reading.specs.Readings.{IsOf};
ghost use Rattle.faultless_pasts.specs.Faultless.{told_codecs};
ghost use Rattle.audited_posts.specs.Posts.{IsShort};
ghost use Rattle.told_pasts.specs.Checks.{is_heard};
ghost use Rattle.trace_audit.specs.Auditing.{AreFirst, IsPassed, IsOpen};
ghost use Rattle.trace_audit.specs.Plans.{IsPlan};
ghost use Rattle.trace_audit.specs.Verdicts.{fault_before};
ghost use Rattle.trace_audit.specs.declared.verdicts.Verdict.{Verdict};

use crate::seats::{Seat, pass_all};
use crate::shares::{is_above, shown};
use crate::verdicts::{Verdict, begins};
use audit_streams::{NoMemory, ToldReader};
use charge_world::Entry;
use session_words::SitePlan;
use std::alloc::Global;

/// What is kept of all posts.
#[derive(Drop)]
pub(crate) struct AuditedSite {
    pub seats: Vec<Seat>,
    /// Something was heard.
    pub begun: bool,
    /// What fails at the newest entry.
    pub verdict: Verdict,
}

/// The posts of a plan before any entry.
fn seats_made<R: ToldReader>(alloc: Global, plan: &SitePlan) -> Result<Vec<Seat>, NoMemory>
    ensures { IfOk result (λ seats. AreFirst (told_codecs R.negotiates R.reads R.encodes R.responds R.watts) plan.now seats.items) }
{
    let mut seats = Vec::new(alloc);
    for post in plan.post.as_slice() {
        let seat = Seat::make::<R>(alloc, post)?;
        seats.push(seat)?;
    }
    Ok(seats)
}

/// All posts of a site take the next entry of the trace, behind what was heard, or wasn't; what fails at it.
fn pass<R: ToldReader>(
    seats: &mut [Seat],
    reader: &mut R,
    plan: &SitePlan,
    entry: &Entry,
    begun: bool,
) -> Verdict
    requires plan { IsPlan plan.now }
    requires count { length seats.old ≡ length plan.now.post.items }
    requires of { IsOf (length plan.now.post.items) entry.now }
    requires short { IsShort entry.now }
    ensures { (past : List Entry) (before : Verdict) → IsPassed (told_codecs R.negotiates R.reads R.encodes R.responds R.watts) plan.now past before begun seats.old
        → fault_before before entry.now ≡ None
        → IsPassed (told_codecs R.negotiates R.reads R.encodes R.responds R.watts) plan.now (entry.now ∷ past) result (is_heard entry.now || begun) seats.new }
{
    let watts = shown::<R>(seats, plan, entry);
    pass_all(seats, reader, plan.post.as_slice(), entry, watts);
    let above = is_above(seats, plan.limit);
    Verdict::of::<R>(seats, entry, begun, above)
}

impl AuditedSite {
    /// Before any entry. It takes all the memory that is needed.
    pub(crate) fn make<R: ToldReader>(
        alloc: Global,
        plan: &SitePlan,
    ) -> Result<AuditedSite, NoMemory>
        ensures count { IfOk result (λ site. length site.seats.items ≡ length plan.now.post.items) }
        ensures open { IfOk result (λ site. IsOpen (told_codecs R.negotiates R.reads R.encodes R.responds R.watts) plan.now [] site) }
    {
        let seats = seats_made::<R>(alloc, plan)?;
        Ok(AuditedSite {
            seats,
            begun: false,
            verdict: Verdict::nothing(),
        })
    }

    /// Takes the next entry of the trace, before which nothing fails.
    pub(crate) fn pass<R: ToldReader>(&mut self, reader: &mut R, plan: &SitePlan, entry: &Entry)
        requires plan { IsPlan plan.now }
        requires count { length self.old.seats.items ≡ length plan.now.post.items }
        requires of { IsOf (length plan.now.post.items) entry.now }
        requires short { IsShort entry.now }
        ensures count { length self.new.seats.items ≡ length plan.now.post.items }
        ensures open { (past : List Entry) → IsOpen (told_codecs R.negotiates R.reads R.encodes R.responds R.watts) plan.now past self.old
            → fault_before self.old.verdict entry.now ≡ None
            → IsOpen (told_codecs R.negotiates R.reads R.encodes R.responds R.watts) plan.now (entry.now ∷ past) self.new }
    {
        self.verdict = pass(self.seats.as_mut_slice(), reader, plan, entry, self.begun);
        self.begun = begins(self.begun, entry);
    }
}
