//! What whoever judges a record reads off the stream of a session (ISO 15118-2:2014, 7.8.3 and 8.8.4): which word an act answers, what bytes that were
//! sent say to it, and whether a word is left.
//!
//! Proved: `judged_by` answers the word that an act judges as `told_pasts` says, and `order_judges` whether an order is about a word; `said` what bytes
//! say to the first word without a reply; `starts` whether PowerDelivery Start is that word, and `is_left` whether the tenth check fails at a post;
//! `mandates_are_told`: it can always be told whether a post is mandated to close, so that a trace in which no check fails is safe and within the limit.
#![tactic(auto)]

mod acts;
mod replies;

ghost use Rattle.std.specs.Prelude.{ℕ, List};
ghost use Rattle.charge_world.specs.declared.entry.Entry.{Entry};
ghost use Rattle.session_words.specs.declared.plan.SitePlan.{SitePlan};
ghost use Rattle.told_pasts.specs.Faults.{IsFaultless};
ghost use Rattle.told_pasts.specs.Safe.{IsSafe, IsWithin};
ghost use Rattle.faultless_pasts.specs.Faultless.{told_codecs, TellsMandated};
ghost use Rattle.audit_mandates.specs.Laws.{TellsStarts};

pub use acts::{is_left, judged_by, order_judges, starts};
use audit_streams::ToldReader;
pub use replies::{ToldReply, ToldSaid, said};

/// It can always be told whether a post is mandated to close.
pub fn mandates_are_told<R: ToldReader>()
    ensures starts { (site : SitePlan) → TellsStarts (told_codecs R.negotiates R.reads R.encodes R.responds R.watts) site }
    ensures mandated { (site : SitePlan) → TellsMandated (told_codecs R.negotiates R.reads R.encodes R.responds R.watts) site }
    ensures safe { (site : SitePlan) (past : List Entry) → IsFaultless (told_codecs R.negotiates R.reads R.encodes R.responds R.watts) site past
        → IsSafe (told_codecs R.negotiates R.reads R.encodes R.responds R.watts) site past × IsWithin (told_codecs R.negotiates R.reads R.encodes R.responds R.watts) site past }
{}
