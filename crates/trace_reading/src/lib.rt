//! A whole trace read as the past whose text it is, or its first line that is outside the grammar (own).
//!
//! The contracts speak of the text of a past, as `trace_text` defines it, and not of a parser.
//!
//! Proved: `read_trace`: the past whose text it is, in either format, or the first line outside the grammar.
#![tactic(auto)]

mod cuts;
pub mod format;
mod next;
mod reading;
mod standing;

pub use format::Format;
pub use next::is_hearing;
pub use reading::read_trace;
pub use trace_text::LineFault as TraceFault;
