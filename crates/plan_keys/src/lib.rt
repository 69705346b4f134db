//! The keys of a TOML table, each judged by a rule (own): its name, its form with its bounds, and what it says where it is left out.
//!
//! A table's keys are read one after another from `Keys`, which remembers their names and the first that is wrong.
//! `specs/Keys.antt` says what a value says by its form, the rules of keys and what is known after each, and
//! `specs/Faults.antt` which fault is told.
//!
//! Proved: `Keys`: what a key says by its rule, or what is wrong with it (`Says`), and the first wrong key; `unknown`: the least key, byte
//! by byte, that was never asked for (`least_unknown`); `document`.
#![tactic(auto)]

mod fault;
mod forms;
mod keys;
mod texts;

pub use fault::{Key, PlanFault, Wanted};
pub use forms::{Short, Wrong, list_of};
pub use keys::{Found, Keys};
pub use texts::{LONGEST, document};
