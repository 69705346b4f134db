//! The bytes that a hexadecimal text spells (own): two digits are a byte, the high four bits first, and a digit is of either case.
//!
//! Proved: `bytes_of`: the at most 65,536 bytes of a text (`IsHexOf`), or the place at which it spells none (`hex_fault`).
#![tactic(auto)]

mod hex_text;

pub use hex_text::{HexFault, bytes_of};
