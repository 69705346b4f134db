//! How a command ends: its status, and the lines that tell of faults (own).
//!
//! Proved: the statuses and their lines; `print_line`: a line was printed at a status, or a front of it where that failed (`PrintsAs`). How a command ends
//! where no call failed (`Completes`) is a definition here.
#![tactic(auto)]

mod fault;
mod line;
mod printing;
mod status;

pub use fault::{line_of_input, tell_fault, tell_plan};
pub use line::{Line, add, add_number};
pub use printing::print_line;
pub use status::Status;
