//! The two ends of a pipe in memory: a post that is alone at its site, with its simulated charger, and a car. Each hears what comes to it, and
//! does one thing at a time.
//!
//! Proved: for any codecs, `act` and `step`: what a post and a car do next is what they may do, all is taken, what is said goes behind what is
//! under way, and what is counted is counted (`PostGoes`, `CarGoes`); `Way`: bytes under way, in memory that is taken once.
#![tactic(auto)]

mod car;
mod end;
mod post;
mod tallies;
mod way;

pub use car::step;
pub use end::{CarEnd, PostEnd};
pub use post::act;
pub use std::alloc::AllocError as NoMemory;
pub use tallies::{CarTally, PostTally};
pub use way::Way;
