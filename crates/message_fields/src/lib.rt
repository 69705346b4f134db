//! What a record is made of, its attributes and its children, read as one value.
//!
//! Proved: what a record is made of is read as one value: each kind of child says of itself what `message_parts` says of it (`Children`),
//! tuples say so of several, and `Elements` to `Elements4`, `WithAttribute` and `WithOptionalAttribute` of all children with at most one
//! attribute (`Contents`).
#![tactic(auto)]

mod made;
mod singles;
mod tuples;

pub use made::{Elements, Elements2, Elements3, Elements4, WithAttribute, WithOptionalAttribute};
pub use message_parts;
pub use singles::{
    AtMostOneOf, LeftOut, OneOf, Optional, OptionalValue, Required, RequiredValue, Several,
    SeveralValues,
};
pub use tuples::Children;
