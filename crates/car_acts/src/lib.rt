//! What a car does next, prepared with the car's codecs, done on its wire and written to its trace.
//!
//! Proved: `step`: what a car does next is done on its wire and written to its trace, or its next word is read; where the wire tells its
//! past, that carries a run of the car to a run (`InRun`), and less is left to do; what it says can always be spelled (`IsSound`), and what
//! it reports at its end is the report of its past.
#![tactic(auto)]

mod acting;
mod choosing;
mod deeds;
mod driver;
mod preparing;
mod reading;

pub use acting::step;
pub use deeds::{Deed, keep};
pub use driver::{CarReport, Driver};
pub use preparing::prepare;
pub use reading::judge;
