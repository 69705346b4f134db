//! The trace that a text of at most 256 MiB tells, or the one line at which it is refused (own).
//!
//! Proved: `trace_of`: the entries that a text tells, or its first line that is outside the grammar, or the one in which it passes 256 MiB.
#![tactic(auto)]

mod judging;

pub use judging::{LONGEST_TRACE, trace_of};
