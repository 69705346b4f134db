//! The elements of a body of ISO 15118-2:2014 that hold no long list, as one type.
//!
//! `tools/message_types.py` writes its types, their definitions and their proofs from `tools/iso.schema` and `tools/iso.types`.
//!
//! Proved: each type is read and written as its declaration in `iso_schema` says.
#![tactic(auto)]

mod brief;

pub use brief::BriefElement;
pub use iso_delivery;
pub use iso_details;
pub use iso_parameters;
pub use iso_setup;
pub use iso_setup::iso_parts;
