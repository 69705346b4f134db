//! The command that judges a trace by itself, whoever wrote it, for the plan in a file (own), with a reader of payloads of any kind.
//!
//! Proved: `audit`: prints how many lines the trace has where no check of it fails, and else the first that fails, by its line and number; where none
//! does, the trace is safe and within the limit of the site. `fault_in`: that check, with the first post for which it fails.
#![tactic(auto)]

mod auditing;
mod command;
mod finding;
mod lines;

pub use command::audit;
pub use finding::fault_in;
pub use planned_traces;
pub use trace_audit::Fault;
