//! The deadlines of a post's session: how long it waits for SessionSetup, for the next request and for the contactor's feedback (ISO
//! 15118-2:2014, 8.7; the last is own).
//!
//! Proved: `Deadlines` answers what its calls say (`Due`); `law_of_deadlines` over every list of calls.
#![tactic(auto)]

pub mod deadlines;
pub mod law;

pub use deadlines::{Deadlines, Last};
pub use law::law_of_deadlines;
