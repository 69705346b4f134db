//! Declarations of elements as plain tables, and what may stand at each place (W3C EXI 1.0, Second Edition, 8.5).
//!
//! Proved: `Schema` as tables that tell a `PlainSchema`, one within the conditions (`is_schema`), which definitions speak of wherever the
//! tables lie; `Places`: at each place the alternatives, the width of a code and the step of a code are those of the definitions (`offers`,
//! `IsWidth`), the next place is the schema's, and a kind of which `sequence` tells children is a sequence of those alone, each with a
//! value (`TellsSequence`); so is one of which `optional_sequence` tells three, but that the second may be absent (`IsOptionalSequence`).
#![tactic(auto)]

mod places;
mod schema;
mod tables;
mod walk;

pub use places::{
    Codes, Offer, OptionalSequence, Place, Places, Root, SequenceChild, Sought, Step,
};
pub use schema::Schema;
pub use tables::{AttributeOf, Datatype, Declaration, Member, MemberStanding, Particle, RootOf};
pub use walk::{is_sought, root_in, simple_step, width_for};
