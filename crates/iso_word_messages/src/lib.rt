//! Neutral words as messages of ISO 15118-2:2014: `of_word`, `of_request` and `of_reply` give the message of a word that the declarations
//! can spell, with the elements that a word doesn't keep.
//!
//! Proved: `of_word`, `of_request` and `of_reply` are a message whose tree is the one that the tables of `iso_tables` write for the word
//! (`IsMessageOf`), where the declarations can spell it (`CanSpell`).
#![tactic(auto)]

mod messages;
mod parameter_messages;
mod power_messages;
mod setup_messages;

pub use messages::{of_reply, of_request, of_word};
