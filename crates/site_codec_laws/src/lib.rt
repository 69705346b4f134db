//! Laws of the codecs of a site: what the laws of runs ask of them. The function does nothing: its contract is the law.
//!
//! Proved: `codecs_are_lawful`: encoded replies read back, each payload is judged in one way, a reply has one encoding (`LawfulCodec`).
#![tactic(auto)]

ghost use Rattle.post_spec.specs.Codecs.{codecs};
ghost use Rattle.post_spec.specs.Spelled.{ReadsBack, AreDetermined, JudgesAll};
ghost use Rattle.site_codec_rules.specs.Codecs.{Reads, Encodes};
ghost use Rattle.site_codec_rules.specs.Negotiating.{Negotiates};

/// The encoding of a reply reads as that reply, but for the watts that its numbers drop. Each payload is judged in one way, and a reply has
/// one encoding.
pub fn codecs_are_lawful()
    ensures reads_back { ReadsBack (codecs Negotiates Reads Encodes) }
    ensures determined { AreDetermined (codecs Negotiates Reads Encodes) }
    ensures judges { JudgesAll (codecs Negotiates Reads Encodes) }
{}

pub use site_codec_rules;
