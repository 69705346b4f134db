//! A car: it looks for its post, talks to it by its plan and orders its contactor (ISO 15118-2:2014, sections 7.10.1, 8.7 and 8.8; DIN SPEC
//! 70121:2014).
//!
//! Proved: with codecs that are lawful, `drive_car`, of a car that `CarSite::make` made with all its memory: its turns, and at the end Open where the
//! contactor is live: the past is a run of the car (`IsDriven`), each `until` the definition's, the trace its text (`TracedAs`), the report its count;
//! and the past is lawful (`IsLawful`): each Close stands behind the words that mandate it and is mandated by the bytes of the session before
//! it, nothing follows its end, what it keeps of its contactor and its session is what its past and its steps tell, and it ends open;
//! `law_of_cars`: every run by which a car was driven, whole or cut, is lawful, by the very steps of that run.
#![tactic(auto)]

mod driving;
mod lawful;

pub use car_acts::CarReport;
pub use car_turns::{CarSite, Ended};
pub use driving::drive_car;
pub use lawful::law_of_cars;
pub use trace_lines::NoMemory;
