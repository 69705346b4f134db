//! The text of a file, up to a limit, and the plan of a station, or of a car, in a file (own).
//!
//! Proved: `text_in` reads the text of a file, and no further once it is longer than a limit; `site_plan_in`, `car_plan_in`: the plan of a
//! station, or of a car, that the text of a file says, or its first fault; one that is longer than 65,536 bytes is refused.
#![tactic(auto)]

mod cars;
mod plans;
mod reading;

pub use cars::car_plan_in;
pub use plans::{PlanFileFault, site_plan_in};
pub use reading::{TextFault, text_in};
