//! A schema compiled into rows: what is offered at each place (W3C EXI 1.0, Second Edition, 8.5.4), read off without a walk.
//!
//! Proved: `compile` makes the `Rows` of the schema that a type stands for (`Declared`), which borrows nothing; `Rows` answers each call of
//! `Places` as the schema does. It keeps the sequences (`keeps_sequences`): each of at most eight values is told, and each of three of which the
//! second may be absent.
#![tactic(auto)]

mod compiled;
mod counts;
mod filling;
mod optional;
mod sequences;

pub use charge_world::NoMemory;
pub use compiled::{Declared, Rows, compile};
