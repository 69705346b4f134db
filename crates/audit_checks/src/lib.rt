//! The ten checks of a foreign trace at an entry, for one of its posts, off what is kept of the post before the entry and behind it (IEC 61851-1 and
//! IEC 61851-23; ISO 15118-2:2014, section 8.8).
//!
//! Proved: `Check::fails` answers exactly where `told_pasts` says that the check fails for the post, where it is told of the entry what no post keeps
//! (`Around`); `Check::may_fail`: where it answers no, the check fails for no post; `checks_are_posts`: a check fails at an entry exactly where it fails
//! for one of the posts.
#![tactic(auto)]

mod around;
mod checks;

ghost use Rattle.faultless_pasts.specs.Faultless.{told_codecs};
ghost use Rattle.audit_checks.specs.Checks.{ChecksArePosts};

pub use around::Around;
pub use checks::Check;
use faultless_pasts::ToldCoded;

/// A check fails at an entry exactly where it fails for one of the posts.
pub fn checks_are_posts<C: ToldCoded>()
    ensures { ChecksArePosts (told_codecs C.negotiates C.reads C.encodes C.responds C.watts) }
{}
