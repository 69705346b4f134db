//! The plans of a charging site and of a car, read from TOML (own).
//!
//! `specs/Keys.antt` has the tables of their keys, one line a key.
//!
//! Proved: `site_plan_of`, `car_plan_of`: the plan that a text says (`IsSitePlanOf`, `IsCarPlanOf`), or its first fault (`AnswersBy`), of
//! which each text has at most one, and none beside a plan; within the rules of plans; `fixed`, `fixed_car`.
#![tactic(auto)]

mod car;
mod post;
mod site;
mod stored;
mod words;

pub use car::car_plan_of;
pub use plan_keys::{Key, PlanFault};
pub use session_words::{CarPlan, Mode, PostPlan, SitePlan, Stop};
pub use site::site_plan_of;
pub use stored::{fixed, fixed_car};
pub use words::mode_name;
