//! How EXI spells its items as bits (W3C EXI 1.0, Second Edition, 7.1), and when an item can't be taken, as definitions that contracts
//! cite.
//!
//! Proved: definitions, and the laws that each list of bits begins with one item or has one refusal, at one of its bits; `unsigned_of`, a
//! plain reader of the integers.
#![tactic(auto)]

pub mod laws;
pub mod plain;

/// Why an item can't be taken from the bits at its place (own).
#[derive(Clone, Copy, Debug, PartialEq, Eq)]
pub enum BitCause {
    /// The bits end before the item does.
    ShortInput,
    /// The tenth octet of an Unsigned Integer says that more follow, or its value is 2^64 or more.
    WiderInteger,
    /// A code point is no Unicode scalar value.
    BadChar,
}

/// An item that can't be taken.
#[derive(Clone, Copy, Debug, PartialEq, Eq)]
pub struct BitFault {
    /// Why it can't.
    pub cause: BitCause,
    /// The place of its first bit, counted from 0 at the highest bit of the first byte.
    pub bit: u32,
}
