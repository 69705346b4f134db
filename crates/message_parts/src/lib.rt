//! Messages read from and written as the events of their documents, part by part, into a place that the caller lends where a type is too
//! large to move.
//!
//! Proved: for any schema and each type that says what it contains by its parts, `read` gives a message whose tree the payload spells
//! (`IsDocument`), or the payload's refusal (`IsRefused`), and `read_here` the same in a message that the caller lends; `write` gives the
//! one encoding of the message's tree (`IsEncoding`), `Full` exactly where it has more bits than the room, with the bits of the whole
//! encoding (`TellsBits`; of more than 65,536 bytes it tells that they are more), on the condition that the tree has an encoding. A record
//! says of what it is made (`Record::Made`), which `whole_record` reads. Each part of reading says, wherever its element stands: where so
//! many particles are behind, it gives the value and its events are told besides; each part of writing: where its events are the next of an
//! encoding, its bits are put, or the whole has no room.
#![tactic(auto)]

mod children;
mod descent;
mod document;
mod lent_text;
mod numbers;
mod part;
mod texts;
mod writer;

pub use children::{
    OptionalSecond, Three, attribute, choice, first_child, last_attribute, left_out, member,
    member_here, member_value, optional, optional_choice, optional_choice_here, optional_here,
    optional_value, records, records_here, required, required_here, value, values, whole_record,
};
pub use descent::Descent;
pub use document::{read, read_here, write};
pub use exi_events;
pub use exi_events::{OptionalChildren, ThreeChildren};
pub use lent_text::LentText;
pub use part::{
    Choice, Contents, Group, LargeChoice, LargeGroup, LargeRecord, PutChoice, PutRecord,
    ReadRecord, Record, Root, Simple, optional_children, three_children,
};
pub use texts::{Binary, Text};
pub use writer::{
    put_attribute, put_choice, put_event, put_optional, put_optional_attribute,
    put_optional_choice, put_optional_value, put_record, put_records, put_value, put_values,
};
