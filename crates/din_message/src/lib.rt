//! The messages of DIN SPEC 70121:2014 in the profile as one type, and the payloads that spell them.
//!
//! `tools/message_types.py` writes its types, their definitions and their proofs from `tools/din.schema` and `tools/din.types`; what a
//! payload spells is defined by hand.
//!
//! Proved: all messages in the profile as one type, read and written as the types of its elements are. Definitions: which payload spells it
//! (`IsDin`), what refuses a payload (`IsDinRefused`), its one encoding (`IsDinEncoding`).
#![tactic(auto)]

mod message;
mod root;

pub use message::{Body, BodyElement, DinMessage};
