//! A simulated charger: what it tells, and when, after a car came and after orders.
//!
//! Proved: `Sim` is the table of events, places and moments (`Charger`).
#![tactic(auto)]

mod amounts;
mod charger;
mod moments;

pub use charger::Sim;
