//! What a post of a site does next, prepared with the site's codecs, done on its wire and written to its trace.
//!
//! Proved: `act`: for any codecs and any wire, what a post of a site does in a hearing carries a run to a run, and the trace has the line
//! of each entry right behind its call.
#![tactic(auto)]

mod acting;
mod choosing;
mod deeds;
mod preparing;

pub use acting::act;
pub use choosing::next_deed;
pub use deeds::{Deed, keep};
