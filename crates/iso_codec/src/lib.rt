//! The messages of ISO 15118-2:2014 in the profile, read from payloads over compiled rows, or refused exactly, and written as their one
//! encoding.
//!
//! Proved: `read_iso` leaves a message in the place that is lent exactly where the payload spells its tree (`IsIso`), else the exact
//! refusal (`IsIsoRefused`); `write_iso` writes the one encoding (`IsIsoEncoding`), which reads as that message, and is `Full` exactly
//! where the room is smaller, with the bits that are needed; over compiled rows, made once (`IsoTables::make`). Both take no memory. Laws:
//! `messages_and_refusals`, `one_tree`, `one_encoding`, `encodings_are_read`, `messages_are_written` (a message that was read, and each
//! whose parts hold what is declared, can be written).
#![tactic(auto)]

mod codec;
pub mod laws;
mod tables;

pub use charge_world::NoMemory;
pub use codec::{read_iso, write_iso};
pub use exi_documents::{Refusal, RefusalCause};
pub use exi_events::{Full, Table};
pub use iso_message::{Body, BodyElement, BriefElement, IsoMessage};
pub use tables::IsoTables;
