//! The messages of ISO 15118-2:2014 as neutral words: `to_word` gives the word of any message.
//!
//! Proved: `to_word` is the neutral word that the tables of `iso_tables` read of the message's tree (`word_of_tree`).
#![tactic(auto)]

mod parameter_words;
mod power_words;
mod setup_words;
mod words;

pub use words::to_word;
