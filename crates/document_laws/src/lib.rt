//! Laws of documents: their events and trees say the same, a payload has one tree or one refusal, the bits of one never begin another's,
//! and a tree has one encoding. Each of these functions does nothing: its contract is the law.
//!
//! Proved: laws of those definitions, for every schema: `events_tell_trees` (the events up to the end are those of one tree that the same
//! bits spell), `each_value`, `each_event`, `prefix_free` (the bits of one document never begin those of another), `each_payload` (each
//! payload spells one tree or has one refusal, never both), `encodings` (what is written spells its tree, an event is written in one way,
//! and a tree has one encoding), `distinct_offers`.
#![tactic(auto)]

pub mod laws;
