//! What ends a session where it applies is a cause of its past.
//!
//! Proved: `applied_causes_are_causes`: at each place of a past, a call that failed, a deadline that passed and what was heard, where they apply
//! (`caused_ends`), are causes of that past (`post_spec`): at that place the first two, at its hearing the last; `applied_words_are_causes`:
//! over codecs that judge each payload, so are a word that ends a session without a cause, and a negotiation that matched nothing.
#![tactic(auto)]

ghost use Rattle.post_spec.specs.Codecs.{codecs};
ghost use Rattle.applied_causes.specs.Applied.{RunsApplyCauses, RunsApplyWords};

pub use caused_ends;
pub use opens_have_reasons;
use post_spec::Coded;
pub use read_agendas;
pub use served_sessions;

/// In every run, what ends a session at a place, and is no word, is a cause of what was heard and done up to there. What was heard may be
/// judged behind an order to open that was owed: it is a cause of the hearing before it (IEC 61851-1, annex A; IEC 61851-23; ISO
/// 15118-2:2014, 8.7 and 8.8).
pub fn applied_causes_are_causes<C: Coded>()
    ensures { RunsApplyCauses (codecs C.negotiates C.reads C.encodes) }
{}

/// In every run over codecs that judge each payload, the word that ends a session which has no cause yet is a cause of what was heard and done
/// up to there, however the words behind it are judged; and so is a negotiation that matched nothing, behind its response (ISO 15118-2:2014,
/// 8.2, 8.7 and 8.8).
pub fn applied_words_are_causes<C: Coded>()
    ensures { RunsApplyWords (codecs C.negotiates C.reads C.encodes) }
{}
