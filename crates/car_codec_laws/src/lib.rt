//! Laws of the codecs of a car: what the laws of runs ask of them. The function does nothing: its contract is the law.
//!
//! Proved: `car_codecs_are_lawful`: a request reads back, a payload is judged one way and what is said has one encoding, and a chosen
//! dialect is one on offer.
#![tactic(auto)]

ghost use Rattle.car_spec.specs.Codecs.{codecs};
ghost use Rattle.car_spec.specs.Spelled.{ReadsBack, AreDetermined};
ghost use Rattle.car_codec_rules.specs.CodecCodecs.{Reads};
ghost use Rattle.car_codec.specs.Judging.{ChoosesOffered};
ghost use Rattle.car_codec_rules.specs.Codecs.{Encodes};
ghost use Rattle.car_codec_rules.specs.Offering.{Offers};
ghost use Rattle.car_codec_rules.specs.Responding.{Responds};

/// The encoding of a request reads as that request, but for the watts that its numbers drop. A payload is judged one way, and an offer and
/// a request have one encoding. A dialect that is chosen is one of those on offer.
pub fn car_codecs_are_lawful()
    ensures reads_back { ReadsBack (codecs Offers Responds Reads Encodes) }
    ensures determined { AreDetermined (codecs Offers Responds Reads Encodes) }
    ensures offered { ChoosesOffered Responds }
{}

pub use car_codec_rules;
