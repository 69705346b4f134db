//! What both ends of a charge, a site and a car, have in common (own): a call with its line of the trace, a hearing with its line, and the order by which
//! an end closes.
//!
//! Proved: `perform`: for any wire, a call of an end is one entry of the past, and its line stands right behind it in the trace, whole or in part where
//! the write failed; `write_heard`, `write_lost`: the line of a hearing; `open`: the order by which an end closes, with its line.
#![tactic(auto)]

mod calls;
mod closing;
mod desk;
mod hearing;
mod lines;

pub use calls::{Call, Outcome, done, perform};
pub use closing::open;
pub use desk::{Desk, FRAME, put_header};
pub use hearing::{SoFar, bound_event, bound_heard, bytes_heard};
pub use lines::{write_heard, write_lost};
pub use trace_lines::{TraceFailed, TraceLines};
