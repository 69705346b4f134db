//! What whoever judges a record keeps of the watts that a reply spells, as its message writes them (ISO 15118-2:2014, 8.4.3.8; DIN SPEC
//! 70121:2014): the greatest of them, and whether each writes the watts that the post was told.
//!
//! Proved: with each value (`WattValues::with_power`, `with_current`, `with_p_max`) they are those that `told_pasts` reads off all of them.
#![tactic(auto)]

mod values;

pub use values::{WattValues, WrittenValue};
