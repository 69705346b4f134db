//! A car in its turns: it hears, and does and reads all that follows from it; at the end a live contactor is ordered open. Each line of the trace is
//! written right behind what it tells.
//!
//! Proved: `CarSite`, a car with all its memory, is an end of a charge (`End` of `end_turns`): what it does in a hearing carries a run of the car to
//! a run, each hearing waits until the definition's `until`, and the order by which it closes is the definition's.
#![tactic(auto)]

mod ending;
mod site;
mod turning;

pub use ending::Ended;
pub use site::CarSite;
