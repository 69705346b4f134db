//! The requests of a car whose replies it awaits (ISO 15118-2:2014, 8.8.4; DIN SPEC 70121:2014; IEC 61851-23), each a type of its own that its
//! reply uses up: so a request can't be left but by what its reply leads to. The contactor is ordered closed by spending a `CloseRight`,
//! which in direct current a reply to PreCharge within 20.0 V of its target gives, and in alternating current an accepted PowerDelivery
//! Start. What is asked and what a reply leads to are the rules of a car (`car_rules`).
//!
//! Proved: what comes next, how long to wait, what to order and what ends the car are those of `car_rules` (`Leads`), and Close needs a
//! right that a PreCharge within 20.0 V gives, or in AC an accepted Start.
#![tactic(auto)]

mod carried;
pub mod power;
pub mod right;
pub mod row;
pub mod setup;

pub use carried::{Carried, Charged, Cycles};
pub use right::CloseRight;
pub use row::{Moved, Row};
