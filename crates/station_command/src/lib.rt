//! The command that serves a station by the plan in a file (own), with codecs of any kind.
//!
//! Proved: `station`: serves by the plan in a file, with any lawful codecs.
#![tactic(auto)]

mod command;
mod lines;
mod ports;
mod serving;

pub use command::{key_of, station};
