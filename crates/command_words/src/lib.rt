//! The words of the program's commands, which are read with `clap`.
//!
//! Proved: `read_words`: the command that the words are (`IsCommand`), or that they are none (`IsNoCommand`), but for want of memory; they
//! are read with `clap`, behind the test that none begins with `-`; `Asked::by`: what words that are no command ask for.
#![tactic(auto)]

mod asked;
mod forms;
mod grammar;
mod reading;
mod word_list;

pub use asked::Asked;
pub use reading::{Command, WordsFault, read_words};
pub use word_list::WordList;
