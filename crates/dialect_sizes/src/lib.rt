//! A code of a message has no more than 6 bits, one of the negotiation no more than 2, so that a document's bits are bounded by its weight.
//! Each of these functions does nothing: its contract is the law.
//!
//! Proved: `codes_are_narrow`: 6 bits in ISO 15118-2 and DIN SPEC 70121, 2 in the negotiation.
#![tactic(auto)]

pub mod laws;
