//! The schema of the messages of ISO 15118-2:2014 that are in the profile: their names, their kinds, and their declarations as tables.
//!
//! `tools/schema_tables.py` writes names, kinds, tables and definitions from `tools/iso.schema`.
//!
//! Proved: `IsoSchema::schema` tells the declarations of the messages of ISO 15118-2 (`schema`), which meet the conditions on a schema.
#![tactic(auto)]

pub mod kinds;
pub mod names;
mod tables;

pub use tables::IsoSchema;
