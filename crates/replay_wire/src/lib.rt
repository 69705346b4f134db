//! A recorded run as a wire (own): it gives the hearings of a trace, and its calls fail by the trace's marks.
//!
//! It keeps no past in memory: its past exists in proofs alone.
//!
//! Proved: `ReplayWire` gives a trace's hearings and fails by its marks.
#![tactic(auto)]

mod history;
mod laws;
mod places;
mod told;
mod wire;

pub use laws::traces_can_be_heard;
pub use wire::{Recorded, ReplayWire};
