//! The auditor of a foreign trace: it takes the entries of the trace one by one and tells the first check that fails, whoever wrote the trace
//! (IEC 61851-1 and IEC 61851-23; ISO 15118-2:2014, sections 8.7 and 8.8).
//!
//! Proved: `Auditor::finish` answers the first fault of all entries that were taken as `told_pasts` defines it, the least line and there the least check,
//! exactly where a check fails, for any codecs that judge each payload in one way; where none does, the trace is safe and within the limit. `take` and
//! `finish` take no memory.
#![tactic(auto)]

mod auditor;
mod seats;
mod shares;
mod site;
mod verdicts;

pub use auditor::{Auditor, Fault};
pub use std::alloc::AllocError as NoMemory;
