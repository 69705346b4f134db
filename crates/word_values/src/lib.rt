//! Amounts, texts and Binaries of messages as those of neutral words, and how they are written from words (ISO 15118-2:2014, DIN SPEC
//! 70121:2014).
//!
//! Proved: `in_tenths`, `in_watts`: how a physical value counts; `written_tenths`, `written_volts`, `written_watts`: with which Multiplier
//! and Value an amount is written; texts and Binaries as bytes of a word.
#![tactic(auto)]

pub mod amounts;
pub mod items;

pub use amounts::{Written, in_tenths, in_watts, written_tenths, written_volts, written_watts};
pub use items::{bytes_of, evse_text_of};
