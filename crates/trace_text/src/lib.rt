//! The lines of a trace and the entries that they say, one for each entry of a past, and the whole text of a past (own).
//!
//! Format 1 has the line of each entry, format 2 the number of its hearing and a space before it. A line ends in a line
//! feed, which the calls write and want.
//!
//! Proved: `write_line`, `read_line`, `write_numbered`, `read_numbered`: one grammar (`line_of`), and an answer `BadLine` only outside it;
//! `lines_are_unambiguous`; `traces_are_unambiguous`: the whole texts of two pasts in the grammar (`trace_text`, `trace_text_1`) differ.
#![tactic(auto)]

pub mod laws;
pub mod reading;
pub mod writing;

pub use laws::{lines_are_unambiguous, traces_are_unambiguous};
pub use reading::{LineFault, read_line, read_numbered};
pub use text_tokens::Full;
pub use writing::{Noted, write_line, write_noted, write_numbered};
