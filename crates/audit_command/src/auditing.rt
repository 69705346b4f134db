//! All entries of a trace, one by one.

ghost use Rattle.std.specs.Prelude.{◌≡◌, ◌<◌, ◌^◌, IfOk, length, reverse, []};
ghost use Rattle.std.specs.List.{AllByRecursion};
ghost use Rattle.session_words.specs.Plans.{IsSitePlan};
ghost use Rattle.trace_reading.specs.Readings.{IsOf};
ghost use Rattle.faultless_pasts.specs.Faultless.{told_codecs};
ghost use Rattle.trace_audit.specs.Posts.{IsShort};
ghost use Rattle.trace_audit.specs.Taken.{HasTaken};
ghost use Rattle.audit_command.specs.Audits.{IsOfPosts, IsVerdict};

use audit_streams::ToldReader;
use charge_world::Entry;
use session_words::SitePlan;
use std::alloc::Global;
use trace_audit::{Auditor, Fault, NoMemory};

/// The auditor takes entries, the oldest first, where it has taken none.
fn take_all<R: ToldReader + Drop>(auditor: &mut Auditor<R>, entries: &[Entry])
    requires of { AllByRecursion (IsOf (length auditor.old.plan.post.items)) entries.now }
    requires short { AllByRecursion IsShort entries.now }
    ensures plan { auditor.new.plan ≡ auditor.old.plan }
    ensures taken { HasTaken (told_codecs R.negotiates R.reads R.encodes R.responds R.watts) auditor.old.plan [] auditor.old.line auditor.old.fault auditor.old.site
        → HasTaken (told_codecs R.negotiates R.reads R.encodes R.responds R.watts) auditor.new.plan (reverse entries.now) auditor.new.line auditor.new.fault auditor.new.site }
{
    for entry in entries {
        auditor.take(entry);
    }
}

/// The first check that fails in the trace of these entries, the oldest first, for a plan, if one does. Where none does, the trace is safe and within
/// the limit.
pub(crate) fn first_fault<R: ToldReader + Drop>(
    alloc: Global,
    reader: R,
    plan: &SitePlan,
    entries: &[Entry],
) -> Result<Option<Fault>, NoMemory>
    requires plan { IsSitePlan plan.now }
    requires of { AllByRecursion (IsOf (length plan.now.post.items)) entries.now }
    requires short { AllByRecursion IsShort entries.now }
    requires few { length entries.now < 2 ^ 63 }
    ensures verdict { IfOk result (IsVerdict (told_codecs R.negotiates R.reads R.encodes R.responds R.watts) plan.now entries.now) }
    ensures post { IfOk result (IsOfPosts (told_codecs R.negotiates R.reads R.encodes R.responds R.watts) plan.now entries.now) }
{
    let mut auditor = Auditor::make(alloc, reader, plan)?;
    take_all(&mut auditor, entries);
    Ok(auditor.finish())
}
