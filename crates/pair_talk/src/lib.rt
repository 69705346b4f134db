//! A station and a car that a pipe in memory joins (own): what becomes of their plans.
//!
//! Proved: for any codecs, `talk`: its report is that of the run of the pipe that both plans and the seed determine (`IsTalk`); `generate`: what
//! it counts are the counts of so many sessions, one behind another, whose cars are drawn (`AreCounts`); `Pipe`, the same turn by turn: each
//! call's history is the one before with one turn more and what both ends then do (`Turns`), with the next car behind the connection that goes
//! (`Renews`), or with a number drawn; what it tells of the station's last hearing, of counts and of causes is what that history says
//! (`StandsFor`).
//!
//! A session takes no memory once it has begun: nothing in it is passed an allocator, and what is under way never outgrows its room.
#![tactic(auto)]

mod acting;
mod generating;
mod happening;
mod heard;
mod hearing;
mod making;
mod pair;
mod parting;
mod pipe;
mod piping;
mod session;
mod talking;
mod turning;

pub use generating::generate;
pub use pair_plans::PipeCounts;
pub use pipe::Pipe;
pub use std::alloc::AllocError as NoMemory;
pub use talking::{TalkReport, talk};
