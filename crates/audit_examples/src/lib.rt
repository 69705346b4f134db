//! Worked examples of what an auditor of foreign traces keeps, with a small reader of payloads, as tests.
//!
//! Proved: `SmallReader` meets all that is asked of a `ToldReader`, so the laws of one can be met together.
#![tactic(auto)]

mod reader;
#[cfg(test)]
mod streams;

pub use reader::SmallReader;
