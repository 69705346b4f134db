//! The string table of EXI (W3C EXI 1.0, Second Edition, 7.3) as a list, refused exactly at its cap.
//!
//! Proved: `Partitions` is the string table as a list, and lends it; full exactly at its cap.
#![tactic(auto)]

mod partitions;

pub use exi_spec;
pub use partitions::{Partitions, TableFull};

/// Want of memory, which a call can answer that takes an allocator.
pub use std::alloc::AllocError as NoMemory;
