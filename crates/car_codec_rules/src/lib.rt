//! What a car's offer is, what the response to it is judged as and how a request is encoded: in the negotiation (ISO 15118-2:2014, section
//! 8.2), in ISO 15118-2:2014 (section 8.3) and in DIN SPEC 70121:2014. The function does nothing: its contract is the law.
//!
//! Proved: definitions: what a car offers, what the response to it is judged as, and how a request is encoded; `asked_requests`: each
//! request that a car asks can be spelled.
#![tactic(auto)]

ghost use Rattle.car_codec_rules.specs.Asked.{AskedAreSpelled, AskedHaveNoProfile};

/// Each request that a car asks can be spelled in its dialect, and has no profile.
pub fn asked_requests()
    ensures spelled { AskedAreSpelled }
    ensures no_profile { AskedHaveNoProfile }
{}

pub use site_codec_rules;
