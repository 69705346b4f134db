//! What a post keeps of its steps and does next, and the runs of a site of one to eight posts, whole or cut. Definitions, in
//! `specs/`, and what the machines of a post and of a car share of them.
//!
//! Proved: what an order leaves of a live contactor (`live_behind`) and the order that opens one (`opening_if`) are as defined.
#![tactic(auto)]

mod orders;

pub use orders::{live_behind, opening_if};
pub use post_spec;
