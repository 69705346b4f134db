//! In any dialect the tree text of a payload, and the payload of a tree text: of the negotiation (ISO 15118-2:2014, section 8.2), of ISO
//! 15118-2:2014 and of DIN SPEC 70121:2014.
//!
//! Proved: `print_payload` prints the text of the one tree that a payload spells in a dialect (`IsPrinted`), or answers its refusal;
//! `scan_text` gives the one payload that is written for the tree of a text (`IsScanned`), or the exact place of its fault (`IsUnscanned`);
//! `dialects_are_consistent` (what scanning asks of a schema, computed), `texts_and_refusals` (a payload has one text or one refusal, never
//! both), `payloads_and_faults`, `scanned_texts_are_printed`.
#![tactic(auto)]

pub mod laws;
mod trees;

pub use message_dialects::MessageDialect;
pub use tree_text::{NoMemory, Piece, PrintFault, Refusal, RefusalCause, ScanFault};
pub use trees::{print_payload, scan_text};
