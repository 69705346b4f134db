//! The turns of an end of a charge, a site or a car (own): it hears, and does all that follows from it; at the end each live contactor is ordered
//! open. Each line of the trace is written right behind what it tells.
//!
//! Proved: `run`: for any end (`End`) and any wire, the past is a run of the end (`HasRun`), cut where a line of the trace couldn't be written and
//! closed by the orders to open; each `until` is the moment at which the end is due, and the trace is the past's text (`TracedAs`).
#![tactic(auto)]

mod end;
mod ending;
mod turning;

pub use end::End;
pub use ending::Ended;
pub use turning::run;
