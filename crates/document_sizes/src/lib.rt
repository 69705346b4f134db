//! How many bits are written for a document at most, by adding up over its tree or its parts. Each of these functions does nothing: its
//! contract is the law.
//!
//! Proved: `documents_are_small`: for a schema with narrow codes, what is written for a tree takes no more bits than its weight, which adds
//! up over its parts (`parts_add_up`).
#![tactic(auto)]

pub mod laws;
