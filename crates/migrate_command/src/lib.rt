//! The command that carries a trace of format 1 over to format 2 (own).
//!
//! Proved: `migrate`: writes the text in format 2 of the entries whose text in format 1 a file has, or tells the one line at which the file
//! is refused.
#![tactic(auto)]

mod command;
mod lines;
mod reading;
mod writing;

pub use command::migrate;
pub use command_status;
