//! The watts that the last replies of all posts spell, read off their bytes, stay within the limit.
//!
//! Proved: for any codecs, `spelled_within_limit` (behind every entry of a run and of the orders that close it, each post spells watts,
//! read off the bytes of its last reply on watts, and together they are at most the limit; where an encoded reply reads as that reply, and
//! a first payload is no request of a dialect), `spelled_once` (a past spells one list of watts, where a payload is judged one way).
#![tactic(auto)]

ghost use Rattle.post_spec.specs.Codecs.{codecs};
ghost use Rattle.spelled_watts.specs.Spelling.{RunsSpellWithin, FrontsSpellWithin, AreSpelledOnce};

use post_spec::Coded;

/// The watts that the last replies sent to all posts spell, in watts or as a current at the nominal voltage, add up to at most the
/// site's limit, behind every entry of a run and of the orders that close it; where an encoded reply reads as that reply, and a first
/// payload is no request of a dialect.
pub fn spelled_within_limit<C: Coded>()
    ensures runs { RunsSpellWithin (codecs C.negotiates C.reads C.encodes) }
    ensures fronts { FrontsSpellWithin (codecs C.negotiates C.reads C.encodes) }
{}

/// Where a payload is judged one way, a past spells one list of watts.
pub fn spelled_once<C: Coded>()
    ensures { AreSpelledOnce (codecs C.negotiates C.reads C.encodes) }
{}
