//! Runs of the program of which nothing is said. Each call of `run` in `charge_run` is proved with all clauses of its contract; a call of these
//! isn't, so tests make them.
#![tactic(auto)]

mod left;
mod plain;

pub use charge_run::{Status, WordList};
pub use left::{Failing, Left, left_by};
pub use plain::run;
