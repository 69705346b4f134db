//! What happens between a station and a car that a pipe in memory joins, as definitions that contracts cite: histories, whose happenings each
//! follow from those before, with the counts over them; the numbers drawn there; and which plans match.
//!
//! Proved: `Numbers` draws what its definition says.
#![tactic(auto)]

mod numbers;

pub use numbers::Numbers;
pub use post_spec;
