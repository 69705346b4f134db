//! The values and events of an EXI document, lent from its payload, and the string table of a payload (W3C EXI 1.0, Second Edition, 4 and
//! 7).
//!
//! Proved: definitions alone, of values and events that are lent from a payload.
#![tactic(auto)]

use exi_bits::{BitSpan, SpanAt};
pub use exi_documents;
use exi_documents::exi_strings::Partitions;

/// The value of an element or of an attribute.
#[derive(Drop)]
pub enum Value<'a> {
    /// 7.1.2 Boolean.
    Bool(bool),
    /// 7.2 Enumerations: the place of a value in the list of its datatype, from 0.
    Ordinal(u32),
    /// 7.1.5, 7.1.6, 7.1.9: an integer.
    Number(i128),
    /// 7.1.1 Binary, lent from the payload.
    Binary(BitSpan<'a>),
    /// 7.1.10 String, lent from the payload.
    Text(BitSpan<'a>),
    /// 7.1.10 String; in writing alone.
    Written(&'a str),
}

/// What a document is told in (Table 4-1).
#[derive(Drop)]
pub enum Event<'a> {
    /// The document starts; its number names the root.
    Document(u32),
    /// An element of this name starts.
    Start(u16),
    /// An attribute of this name.
    Attribute(u16, Value<'a>),
    /// The value of the element that has started.
    Value(Value<'a>),
    /// The innermost element ends.
    EndElement,
    /// The document has ended.
    Finished,
}

/// The value partitions of a payload: the places of its texts, each with the number of a name (7.3.3).
pub type Table = Partitions<SpanAt>;
