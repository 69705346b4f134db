//! The messages of DIN SPEC 70121:2014 in the profile, read from payloads over compiled rows, or refused exactly, and written as their one
//! encoding.
//!
//! Proved: the same of DIN SPEC 70121 as `iso_codec` of ISO 15118-2 (`read_din`, `write_din`, `IsDin`, `IsDinRefused`, `IsDinEncoding`).
#![tactic(auto)]

mod codec;
pub mod laws;
mod tables;

pub use charge_world::NoMemory;
pub use codec::{read_din, write_din};
pub use din_message::{Body, BodyElement, DinMessage};
pub use exi_documents::{Refusal, RefusalCause};
pub use exi_events::{Full, Table};
pub use tables::DinTables;
