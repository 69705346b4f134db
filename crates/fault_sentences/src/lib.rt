//! What the program says to a person where it doesn't do what it was asked: one or two sentences for each status, which name what to change (own).
//!
//! They decide nothing. A file that is read again for them may have changed meanwhile.
//!
//! Proved: of the sentences only that nothing goes wrong in making them.
#![tactic(auto)]

mod audit;
mod input;
mod plan;
mod script;
mod sockets;
mod trace;
mod usage;
mod value;

pub use audit::{FailedCheck, failed_check_in, say_failed_check};
pub use command_words::Asked;
pub use input::{DecodePlace, EncodePlace, place_in};
pub use plan::{say_plan, say_plans};
pub use script::say_script;
pub use sockets::say_trouble;
pub use trace::{Line, is_of_a_car, line_in};
pub use usage::{say_help, say_misused, say_version};
