//! Parts of the messages of DIN SPEC 70121:2014 that have no text or list, as words have them and as they are written: enumerations,
//! physical values and statuses.
//!
//! Proved: the enumerations, physical values and statuses of the dialect as a word has them, and as they are written.
#![tactic(auto)]

pub mod codes;
pub mod modes;
pub mod physical;
pub mod states;
pub mod statuses;
