//! A message that has each shape that a message of a schema may have, read and written part by part.
//!
//! Proved: an example: `read_report` and `write_report` of one message that has each shape are what `message_parts` says; payloads worked
//! out by hand are read, written again, and refused at each kind of place.
#![tactic(auto)]

mod amounts;
pub mod kinds;
mod meter;
pub mod names;
mod report;
mod tables;

pub use amounts::{AcSupply, Amount, Cause, DcSupply, Reading, State, Stopped, Supply};
pub use meter::Meter;
pub use report::{Closed, Day, Report, read_report, write_report};
pub use tables::report_schema;
