//! The dialects in which messages are spelled, each with its declarations.
//!
//! Proved: `DialectTables::schema` tells the declarations of its dialect (`declarations`).
#![tactic(auto)]

mod dialect;
mod tables;

pub use dialect::MessageDialect;
pub use tables::DialectTables;
