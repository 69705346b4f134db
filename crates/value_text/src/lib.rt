//! A value or a name is scanned from a place of a tree's text, or the place of its fault is told (own).
//!
//! A truth value is `true` or `false`, a value of an enumeration its name, a number decimal with at most 20 digits, a Binary lower-case
//! hexadecimal. A text stands in double quotes, with `\"`, `\\` and, below U+0020, `\u{H}` in hexadecimal. The same spelling alone is taken,
//! and no bound of a datatype but its form is asked.
//!
//! Proved: `TextCursor::take_value` takes the longest front of a text that begins a value of a kind, if it is one (`IsFormed`), or tells
//! where it goes wrong; `take_name` the same for names; `one_value`: a text tells one value of a kind; `one_longest_front`.
#![tactic(auto)]

mod awaited;
mod binary;
mod cursor;
mod fault;
pub mod laws;
mod number;
mod quoted;
mod scanned;
mod value;
mod words;

pub use awaited::Awaited;
pub use cursor::TextCursor;
pub use fault::ScanFault;
pub use scanned::Scanned;
