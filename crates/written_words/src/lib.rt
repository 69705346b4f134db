//! What a word reads as once it is written, in either dialect: that word, but for the watts that a Value and its Multiplier drop.
//! Definitions and lemmas alone.
//!
//! Proved: definitions of what of a word is dropped where it is written, and lemmas.
#![tactic(auto)]
