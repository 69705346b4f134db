//! What the program says to a person while it serves, each line as a value that can be printed, and what it counts for them (own).
//!
//! Proved: `cause_of` answers a cause of that number alone; for the lines only that nothing goes wrong in making them.
#![tactic(auto)]

mod cause;
mod frame;
mod journal;
mod notice;

pub use cause::{Cause, cause_of};
pub use frame::{Request, request_in};
pub use journal::{Journal, Progress, Tally};
pub use notice::{
    Begun, Connected, Cycle, Dialing, Ended, Found, Listening, Over, Seconds, Seeking, Serving,
    Speaking, Unconnected,
};
