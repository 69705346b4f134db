//! The codecs of both ends of a pair, and what the laws of pairs ask of them. The function does nothing: its contract is the law.
//!
//! Proved: `codecs_fit_together` (both ends read the messages of a dialect alike, and each reads back what the other encodes; where both speak some dialect,
//! they agree on the first of the car's that the post speaks, so a session of plans that match begins in it; so what is proved of pairs whose codecs fit
//! is so of them).
#![tactic(auto)]

ghost use Rattle.pair_codecs.specs.Codecs.{car_codecs, post_codecs, SessionsBegin};
ghost use Rattle.matched_pairs.specs.PipeRuns.{AreFit};
ghost use Rattle.pair_negotiation.specs.Agreeing.{AgreeOnShared};
ghost use Rattle.pair_readings.specs.Codecs.{AreMutual};

pub use car_codecs::CarCodecs;
pub use site_codecs::ChargeCodecs;

/// Both ends read the messages of a dialect alike, and each reads back what the other encodes, but for the watts that its numbers drop. Where both speak some
/// dialect, they agree on the first of the car's that the post speaks (ISO 15118-2:2014, 8.2), so a session of plans that match begins in it.
pub fn codecs_fit_together()
    ensures mutual { AreMutual post_codecs car_codecs }
    ensures agree { AgreeOnShared post_codecs car_codecs }
    ensures begin { SessionsBegin }
    ensures fit { AreFit post_codecs car_codecs }
{}
