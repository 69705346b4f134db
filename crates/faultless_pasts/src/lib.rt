//! Laws of foreign traces (own): what no failed check says of a trace, and what holds of the watts of any, whoever wrote it.
//!
//! Proved: `faultless_is_safe`: a trace in which none of the ten checks fails is safe and within the limit, wherever it can be told whether a post
//! is mandated to close. `told_within`: whatever a trace tells, the watts that its posts were told stay within the limit.
#![tactic(auto)]

ghost use Rattle.std.specs.Prelude.{ℕ, Bool, List};
ghost use Rattle.charge_world.specs.declared.offer.Dialect.{Dialect};
ghost use Rattle.told_pasts.specs.Spelling.{SpelledWatts};
ghost use Rattle.faultless_pasts.specs.Faultless.{told_codecs, FaultlessIsSafe};
ghost use Rattle.faultless_pasts.specs.Laws.{ToldWithin};

use post_spec::Coded;

/// What the definitions of a foreign trace take from the codecs of its messages, beside the words.
pub trait ToldCoded: Coded {
    /// Whether a payload is a response to a negotiation, and a positive one.
    ghost responds: { List ℕ → Bool → Type 0 };

    /// The watts of the reply that a payload spells in a dialect, as they are written.
    ghost watts: { Dialect → List ℕ → SpelledWatts → Type 0 };
}

/// A trace in which no check fails is safe and within the limit. That it can be told whether a post is mandated to close is what whoever judges the
/// trace finds out.
pub fn faultless_is_safe<C: ToldCoded>()
    ensures { FaultlessIsSafe (told_codecs C.negotiates C.reads C.encodes C.responds C.watts) }
{}

/// Whatever a trace tells, the watts that its posts were told stay within the limit of the site together.
pub fn told_within<C: ToldCoded>()
    ensures { ToldWithin (told_codecs C.negotiates C.reads C.encodes C.responds C.watts) }
{}
