//! The messages of ISO 15118-2:2014 in the profile as one type, and the payloads that spell them.
//!
//! `tools/message_types.py` writes its types, their definitions and their proofs from `tools/iso.schema` and `tools/iso.types`; what a
//! payload spells is defined by hand.
//!
//! Proved: all 26 messages in the profile as one type, read and written as the types of its elements are; a message has 22,920 bytes and is
//! lent by the caller (`IsoMessage::unread` makes one that already holds an element of those without long lists). Definitions: which
//! payload spells it (`IsIso`), what refuses a payload (`IsIsoRefused`), its one encoding (`IsIsoEncoding`).
#![tactic(auto)]

mod message;
mod root;

pub use iso_elements::BriefElement;
pub use message::{Body, BodyElement, IsoMessage};
