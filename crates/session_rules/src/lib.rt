//! What a post answers to a request, and why its session ends (ISO 15118-2:2014, DIN SPEC 70121:2014): the rules that the machine of a
//! post, and whoever judges its record, rest on. Each function's contract is the definition of `specs/` that has its name.
//!
//! Voltages and currents are in tenths of a volt and of an ampere, power is in watts.
//!
//! Proved: for every session, facts, plan and request, `judge` is the code of the first line of the verdict that applies (`verdict`),
//! and off it `reply_to` is the reply in neutral words, `order_of` the order, `stage_behind` and `facts_behind` what is kept;
//! `waiting_reply` is the reply that waited; `leads`, `accepts` are the rows; `ask_of`, `allowed_watts` the watts; `plant_cause`,
//! `word_cause`, `break_cause` the causes. Laws: `law_of_verdicts` (OK exactly without a line that applies; only requests that
//! name the session; codes of the dialect),
//! `law_of_refusals`, `law_of_closing` (Close only for an accepted Start with the pilot at C or D, an open contactor and, in DC, a
//! pre-charge within 20.0 V), `law_of_timeouts`, `law_of_schedules`.
#![tactic(auto)]

pub mod allowed;
pub mod asking;
pub mod causes;
pub mod deadlines;
mod delivery;
pub mod finishing;
pub mod laws;
pub mod moves;
mod offers;
pub mod orders;
mod parameters;
pub mod reply;
pub mod rows;
pub mod stage;
mod status;
pub mod verdict;

pub use allowed::{Lowered, allowed_watts, lowered_by};
pub use asking::{ask_of, asks, shows_watts};
pub use causes::{
    Break, Found, Watch, break_cause, found_by, needs_isolation, plant_cause, word_cause,
};
pub use deadlines::timeout_of;
pub use delivery::off_of;
pub use finishing::{is_ac, is_finished, is_valid};
pub use laws::{
    law_of_closing, law_of_refusals, law_of_schedules, law_of_timeouts, law_of_verdicts,
};
pub use moves::{facts_behind, next_row, stage_behind};
pub use offers::p_max_of;
pub use orders::order_of;
pub use reply::{reply_to, waiting_reply};
pub use rows::{accepts, is_spoken, leads, may_stop};
pub use stage::{PreCharged, Stage, is_set_up, is_waiting};
pub use verdict::{is_accepted, joins, judge};
