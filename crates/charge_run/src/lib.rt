//! All that the program does, as one call.
//!
//! Proved: `run`, the whole program, over any wire, files and outputs: what each command leaves, and when each status comes. `audited_fault`:
//! the fault that `audit` prints, with its post.
#![tactic(auto)]

mod answer;
mod auditing;
mod decode;
mod driving;
mod encode;
mod fault;
mod replaying;
mod serving;
mod talking;
mod top;

pub use audit_command::Fault;
pub use auditing::audited_fault;
pub use command_status::Status;
pub use command_words::WordList;
pub use top::run;
