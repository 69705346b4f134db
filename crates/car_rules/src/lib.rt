//! What a car asks, what it makes of a reply, and why its session ends (ISO 15118-2:2014, DIN SPEC 70121:2014): the rules that the machine
//! of a car, and whoever judges its record, rest on. Each function's contract is the definition of `specs/` that has its name.
//!
//! Voltages and currents are in tenths of a volt and of an ampere, power is in watts, moments and spans are in milliseconds.
//!
//! Proved: for every plan, stage and reply of a car, the request (`request_of`), what a reply leads to (`stage_behind`, `order_of`), each
//! cause (`reply_cause`, `plant_cause`), the deadlines and the search (`hit`, `next_due`, `search_due`) are the definitions of those names.
#![tactic(auto)]

pub mod deadlines;
pub mod moves;
pub mod replies;
pub mod requests;
pub mod searching;
pub mod stage;

pub use deadlines::{CarDue, CarMoments, due_at, hit, hit_by, is_reached, moment_of, next_due};
pub use moves::{is_again, is_pre_charged, order_of, says_finished, stage_behind};
pub use replies::{answers, plant_cause, reply_cause};
pub use requests::{ask_of, pauses, request_of};
pub use searching::{Search, is_searching, next_request, port_of, search_due};
pub use stage::{CarPhase, CarStage};
