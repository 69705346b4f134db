//! What the generator of sessions draws, and the lines that are printed of sessions over a pipe in memory (own).
//!
//! Proved: `drawn_car`: the car without a file, but for the two numbers drawn next (`IsDrawnCar`), within the rules of plans; `talk_line`,
//! `generated_line`.
#![tactic(auto)]

mod cars;
mod lines;

pub use cars::drawn_car;
pub use lines::{PipeCounts, generated_line, talk_line};
pub use pipe_spec::Numbers;
