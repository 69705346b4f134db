//! The command that replays a trace under the plan in a file (own), with codecs of any kind.
//!
//! Proved: `replay`: replays the trace in one file under the plan in another, with any codecs; `writes_itself`: a trace of at most 256 MiB
//! that a station wrote whole is written to itself.
#![tactic(auto)]

mod command;
mod laws;
mod lines;

pub use command::replay;
pub use laws::writes_itself;
pub use planned_traces;
pub use station_command;
