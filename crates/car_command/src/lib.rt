//! The command that drives a car by the plan in a file (own), with any codecs that are lawful.
//!
//! Proved: `car`: drives a car by the plan in a file, with any lawful codecs; its past is lawful too, so that each Close is
//! mandated by the bytes of the session before it.
#![tactic(auto)]

mod command;
mod driving;
mod lines;
mod ports;

pub use command::car;
