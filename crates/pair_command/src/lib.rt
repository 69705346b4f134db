//! The commands of a station and cars over a pipe in memory (own), with any codecs that are lawful.
//!
//! Proved: `talk`: prints how many replies the car heard, and by which cause it ended, in the run of the pipe that the plans in two files and a seed
//! determine; `generate`: prints what is counted of the sessions that a seed and a count determine.
#![tactic(auto)]

mod command;
mod generating;
mod plans;
mod talking;

pub use command::talk;
pub use generating::generate;
