//! A wire that tells a person what happens on it, and else is the wire that it holds (own).
//!
//! Proved: `ToldWire` keeps the promises of `Wire`, with the past of the wire that it holds.
#![tactic(auto)]

mod telling;
mod wire;

pub use wire::ToldWire;
