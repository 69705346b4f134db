//! Basic charging by the duty of the control pilot, after IEC 61851-1, in whole numbers.
//!
//! Proved: `current_of`, `duty_of`, and `Basic` over every list of events; `offers_no_more`, `closes_for_ready_vehicles`, `pauses`.
#![tactic(auto)]

pub mod duty;
pub mod laws;
mod machine;
mod parts;
pub mod words;

pub use duty::{Offered, current_of, duty_of};
pub use laws::{closes_for_ready_vehicles, offers_no_more, pauses};
pub use machine::Basic;
pub use words::{BasicEvent, BasicOrder, Mode};
