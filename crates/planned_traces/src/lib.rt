//! The plan of a station in one file, and a trace at its posts in another (own).
//!
//! Proved: `recording_in`: the plan and the entries that the texts of the files tell, or what is wrong with the first of them that is refused.
#![tactic(auto)]

mod recording;

pub use recording::{FilesFault, Recording, recording_in};
