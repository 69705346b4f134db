//! Power over time, as the two ends of smart charging plan it (ISO 15118-2:2014, 8.5.2.10 to 8.5.2.14): the schedule that a station offers at a
//! moment of a day, from its calendar (own), and the charging profile with which a car should answer one.
//!
//! `specs/` says what an offer is, and which profile is the best that a schedule allows: of those that take no more than the schedule and the car
//! allow, one of the most energy, with as few steps as that takes. Printed (own) is a line `START WATTS` for each step, for a profile behind a line
//! `tuple T entries N energy WH`. Only the lines take memory.
//!
//! Proved: `offer_of` is the one offer of the calendar at the moment (`IsOffer`, `one_offer`); `best_plan`: no profile within the schedule and the cap
//! has more energy, whatever its starts, and none whose steps start at the schedule's starts or its end is better (`IsBest`); its energy; `one_best`:
//! there is one best profile at most; `steps_are_bounded`: it has a step, and each starts before the departure and takes no more than the cap
//! (`AreBounded`); `offer_lines`: the lines of the one offer (`IsOfferText`); `profile_lines`: those of a profile.
#![tactic(auto)]

mod answer;
mod laws;
mod limits;
mod lines;
mod offer;
mod plan;
mod power;
mod rounds;

pub use answer::best_plan;
pub use laws::{one_best, one_offer, steps_are_bounded};
pub use lines::{offer_lines, profile_lines};
pub use offer::offer_of;
pub use plan::Plan;
pub use power::{Calendar, DAY, ENTRIES, Need, Profile, STEPS, Schedule, Step};
