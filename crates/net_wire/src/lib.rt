//! The outside itself: sockets of the loopback network, a clock, files, standard output and a simulated charger at each post.
//!
//! What a socket, a file or the clock gives isn't known to any proof. Here it is only proved that nothing goes wrong in between, and
//! that each object keeps the promises of its trait. All that is a function over values stands in `wire_events`.
//!
//! Proved: `NetWire`, `FileSource`, `StandardOutput` and `TraceFile` keep the promises of `Wire`, `Source` and `Sink`; what the system
//! gives is trusted (docs/OUTSIDE.md).
#![tactic(auto)]

mod ears;
mod files;
mod open;
mod post;
mod sinks;
mod sockets;
mod trouble;
mod wire;

pub use files::FileSource;
pub use sinks::{StandardOutput, TraceFile};
pub use trouble::{Attempt, Trouble};
pub use wire::{NetWire, Sockets};
