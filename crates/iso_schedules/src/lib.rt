//! Schedules of ISO 15118-2:2014: the power that a station gives over time.
//!
//! `tools/message_types.py` writes its types, their definitions and their proofs from `tools/iso.schema` and `tools/iso.types`.
//!
//! Proved: each type is read and written as its declaration in `iso_schema` says.
#![tactic(auto)]

mod schedules;

pub use iso_parts;
pub use schedules::{
    PMaxSchedule, PMaxScheduleEntry, RelativeTimeInterval, SaScheduleList, SaScheduleTuple,
    SaSchedules, TimeInterval,
};
