//! What a site does in its turns: it hears, its posts answer, and at the end each live contactor is ordered open. Each line of the trace is written
//! right behind what it tells.
//!
//! Proved: `hear`: for any codecs and any wire, a hearing with all that the posts do about it carries a run to a run; `close_all` and `cut_all`: the
//! orders that close a run, with the line of each or without.
#![tactic(auto)]

mod closing;
mod hearing;

pub use closing::{close_all, cut_all};
pub use hearing::hear;
