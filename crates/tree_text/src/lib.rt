//! The tree of a payload as text, and the encoding of the tree of a text (own).
//!
//! An element with attributes or children is `Name{..}`, with one space between them, and one without any `Name{}`. A simple element is
//! `Name=VALUE`, an attribute `@Name=VALUE`. Numbers are decimal, truth values `true` and `false`, values of an enumeration their names,
//! a Binary lower-case hexadecimal. A text stands in double quotes, with `\"`, `\\` and, below U+0020, `\u{H}` in hexadecimal.
//!
//! Proved: `print_tree` prints the text of the one tree that a payload spells (`IsTreeText`), in the names of its schema, or answers the
//! payload's refusal; `scan_tree` gives the one encoding of the tree that a text spells, or the exact place of its fault (`IsScanFault`),
//! for a schema in which the elements of one name inside one kind are of one kind (`are_consistent`); `one_text`: a tree has one text;
//! `events_tell_texts`, `texts_tell_events`: it is what the events of the tree add; `texts_are_of_the_dialect`.
#![tactic(auto)]

mod fault;
pub mod laws;
mod print;
mod scan;
mod values;

pub use charge_world::{NoMemory, Piece};
pub use dialect_text::ScanFault;
pub use exi_documents::{Refusal, RefusalCause};
pub use fault::PrintFault;
pub use print::print_tree;
pub use scan::scan_tree;
