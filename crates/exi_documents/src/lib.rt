//! What an EXI document of a schema is (W3C EXI 1.0, Second Edition), as definitions that contracts cite: its tree, its events, the bits
//! that spell it, and the refusal of a payload that spells none.
//!
//! Proved: definitions: the tree of a document and its events, the payloads that spell it (`IsDocument`), its one encoding (`IsEncoding`),
//! and the first item that can't be taken (`IsRefused`); a cause of `exi_bits` becomes the one of its name.
#![tactic(auto)]

mod refusal;

pub use exi_strings;
pub use refusal::{Refusal, RefusalCause};

/// How many texts the string table of a payload holds at most (own).
pub const MOST_ENTRIES: u32 = 8_192;
