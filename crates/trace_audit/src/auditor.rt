//! The auditor.

ghost use Rattle.std.specs.Prelude.{◌≡◌, length};
ghost use Rattle.trace_audit.specs.Plans.{IsPlan};

use crate::site::AuditedSite;
use audit_readings::mandates_are_told;
use audit_streams::{NoMemory, ToldReader};
use charge_world::Entry;
use session_words::SitePlan;
use std::alloc::Global;

/// The first check of a trace that fails.
#[derive(Clone, Copy, Debug, PartialEq, Eq)]
pub struct Fault {
    /// The line at which it fails. The first line of a trace names its format, so its first entry is line 2.
    pub line: u64,
    /// The number of the check, from 1 to 10. What each of them means stands in `told_pasts`.
    pub check: u8,
    /// The first post for which it fails. The limit of the site is a matter of all posts, so there it is 1.
    pub post: u8,
}

/// Judges a trace, entry by entry, for the plan of its site.
#[derive(Drop)]
pub struct Auditor<R> {
    reader: R,
    plan: SitePlan,
    site: AuditedSite,
    /// The line of the newest entry.
    line: u64,
    /// The first fault, once it is known.
    fault: Option<Fault>,
    ghost of_plan: { IsPlan plan },
    ghost count: { length site.seats.items ≡ length plan.post.items },
}

impl<R: ToldReader + Drop> Auditor<R> {
    ghost use Rattle.std.specs.Prelude.{◌≡◌, ◌<◌, ◌-◌, ◌^◌, List, [], ◌∷◌, length, None, IfOk, MatchOption};
    ghost use Rattle.charge_world.specs.declared.entry.Entry.{Entry};
    ghost use Rattle.session_words.specs.Plans.{IsSitePlan};
    ghost use Rattle.trace_reading.specs.Readings.{IsOf};
    ghost use Rattle.told_pasts.specs.Faults.{IsFaultless, IsFirstFault};
    ghost use Rattle.told_pasts.specs.Safe.{IsSafe, IsWithin};
    ghost use Rattle.faultless_pasts.specs.Faultless.{told_codecs};
    ghost use Rattle.audited_posts.specs.Posts.{IsShort};
    ghost use Rattle.trace_audit.specs.Auditing.{IsOfPost};
    ghost use Rattle.trace_audit.specs.Taken.{HasTaken};

    /// Before any entry of a trace of this site. It takes all the memory that is needed.
    pub fn make(alloc: Global, reader: R, plan: &SitePlan) -> Result<Auditor<R>, NoMemory>
        requires { IsSitePlan plan.now }
        ensures plan { IfOk result (λ a. a.plan ≡ plan.now) }
        ensures taken { IfOk result (λ a. HasTaken (told_codecs R.negotiates R.reads R.encodes R.responds R.watts) a.plan [] a.line a.fault a.site) }
    {
        let site = AuditedSite::make::<R>(alloc, plan)?;
        Ok(Auditor {
            reader,
            plan: plan.copied(),
            site,
            line: 1,
            fault: None,
        })
    }

    /// Takes the next entry of the trace. It names no post but those of the plan, and has at most 4,096 bytes that were heard.
    pub fn take(&mut self, entry: &Entry)
        requires of { IsOf (length self.old.plan.post.items) entry.now }
        requires short { IsShort entry.now }
        ensures plan { self.new.plan ≡ self.old.plan }
        ensures taken { (past : List Entry)
            → HasTaken (told_codecs R.negotiates R.reads R.encodes R.responds R.watts) self.old.plan past self.old.line self.old.fault self.old.site
            → HasTaken (told_codecs R.negotiates R.reads R.encodes R.responds R.watts) self.new.plan (entry.now ∷ past) self.new.line self.new.fault self.new.site }
    {
        let line = self.line;
        self.line = line.saturating_add(1);
        match self.fault {
            Some(_) => {}
            None => match self.site.verdict.before(entry) {
                Some(found) => {
                    self.fault = Some(Fault {
                        line,
                        check: found.check,
                        post: found.post,
                    });
                }
                None => self.site.pass(&mut self.reader, &self.plan, entry),
            },
        }
    }

    /// The first check that fails, over the entries that were taken, if one does: the least line decides, then the least check, and then the first post.
    /// Where none does, the trace is safe and within the limit.
    pub fn finish(&self) -> Option<Fault>
        ensures fault { (past : List Entry) → length past < 2 ^ 64 - 2
            → HasTaken (told_codecs R.negotiates R.reads R.encodes R.responds R.watts) self.now.plan past self.now.line self.now.fault self.now.site
            → MatchOption result (IsFaultless (told_codecs R.negotiates R.reads R.encodes R.responds R.watts) self.now.plan past)
            (λ f. IsFirstFault (told_codecs R.negotiates R.reads R.encodes R.responds R.watts) self.now.plan past f.line f.check) }
        ensures post { (past : List Entry) → length past < 2 ^ 64 - 2
            → HasTaken (told_codecs R.negotiates R.reads R.encodes R.responds R.watts) self.now.plan past self.now.line self.now.fault self.now.site
            → MatchOption result (Unit {0}) (λ f. IsOfPost (told_codecs R.negotiates R.reads R.encodes R.responds R.watts) self.now.plan past f.line f.check f.post) }
        ensures safe { (past : List Entry) → length past < 2 ^ 64 - 2
            → HasTaken (told_codecs R.negotiates R.reads R.encodes R.responds R.watts) self.now.plan past self.now.line self.now.fault self.now.site
            → result ≡ None
            → IsSafe (told_codecs R.negotiates R.reads R.encodes R.responds R.watts) self.now.plan past × IsWithin (told_codecs R.negotiates R.reads R.encodes R.responds R.watts) self.now.plan past }
    {
        mandates_are_told::<R>();
        match self.fault {
            Some(fault) => Some(fault),
            None => match self.site.verdict.ends {
                Some(found) => Some(Fault {
                    line: self.line,
                    check: found.check,
                    post: found.post,
                }),
                None => None,
            },
        }
    }
}
