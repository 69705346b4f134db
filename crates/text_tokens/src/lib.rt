//! The words of a line (own): how numbers and bytes are spelled, and how words stand in a line.
//!
//! A number is decimal, without a leading zero. Bytes are lower-case hexadecimal. The words of a line have one space
//! between each two. Each value has one text, and reading takes that text alone.
//!
//! Proved: `number`, `is_hex`, `hex_bytes`, `identifier` read exactly the one text of each number and of each list of bytes; `Words` takes
//! the words of a text one after another; `Line::write` writes words with one space between each two, or says how many bytes it wants;
//! `texts_are_unambiguous`, `words_are_cut`.
#![tactic(auto)]

pub mod laws;
pub mod line;
pub mod values;
pub mod words;

pub use laws::{texts_are_unambiguous, words_are_cut};
pub use line::{Full, Line, Word};
pub use values::{hex_bytes, identifier, is_hex, number};
pub use words::{Refused, Words, before_line_feed};
