//! A past as one post sees it, and every fact that is read off it, in `specs/`: the session and its stream, the charger's facts, the words
//! and what they led to, when a contactor may be closed, the watts that replies spell, what ends a session.
//!
//! Proved: definitions alone, of what a post's past tells.
#![tactic(auto)]

ghost use Rattle.std.specs.Prelude.{ℕ, List, Option};
ghost use Rattle.charge_world.specs.declared.offer.Dialect.{Dialect};
ghost use Rattle.session_words.specs.declared.word.Reply.{Reply};
ghost use Rattle.session_words.specs.declared.word.Word.{Word};
ghost use Rattle.post_spec.specs.Codecs.{Judged};

/// What the definitions of a station take from the codecs below: see `specs/Codecs.antt`. Laws hold for any of them.
pub trait Coded {
    /// What the first payload of a session is judged as, at a post that offers these dialects.
    ghost negotiates: { List Dialect → List ℕ → Judged → Type 0 };

    /// What a later payload spells in its dialect; none where it spells nothing.
    ghost reads: { Dialect → List ℕ → Option Word → Type 0 };

    /// The payload that a reply is sent as.
    ghost encodes: { Dialect → Reply → List ℕ → Type 0 };
}
