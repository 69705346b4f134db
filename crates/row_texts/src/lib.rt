//! Texts of tests: files of rows, the lines of a row behind their marks, vectors of a codec, and what is counted of them.
#![tactic(auto)]

mod counts;
mod lines;
mod vector;

pub use counts::{code_of, count};
pub use lines::{add_line, lines_behind, numbers_behind};
pub use vector::{Vector, bytes_of};
