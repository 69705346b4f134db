//! What a car keeps of its steps and does next, its runs, what its past tells, and when it may close its contactor. Definitions alone, in
//! `specs/`.
//!
//! Proved: definitions alone, of the steps, the state and the runs of a car, whole or cut.
#![tactic(auto)]

ghost use Rattle.std.specs.Prelude.{ℕ, List, Option};
ghost use Rattle.charge_world.specs.declared.offer.Dialect.{Dialect};
ghost use Rattle.session_words.specs.declared.word.Request.{Request};
ghost use Rattle.session_words.specs.declared.word.Word.{Word};
ghost use Rattle.car_spec.specs.Codecs.{Judged};

/// What the definitions of a car take from the codecs below: see `specs/Codecs.antt`. Laws hold for any of them.
pub trait CarCoded {
    /// The payload that offers these dialects.
    ghost offers: { List Dialect → List ℕ → Type 0 };

    /// What the first payload that a car hears is judged as, where it offered these dialects.
    ghost responds: { List Dialect → List ℕ → Judged → Type 0 };

    /// What a later payload spells in its dialect; none where it spells nothing.
    ghost reads: { Dialect → List ℕ → Option Word → Type 0 };

    /// The payload that a request is sent as.
    ghost encodes: { Dialect → Request → List ℕ → Type 0 };
}
