//! The events of EXI documents (W3C EXI 1.0, Second Edition, 4 and 8), read from a payload and written into a room, over the places of any
//! schema. No call takes memory.
//!
//! Proved: `EventReader` over any `Places`: each event is the grammar's next one (`Moves`), those up to `Finished` are those of the one
//! tree that the payload spells, and a refusal is the payload's (`IsRefused`), answered again; a loop over them ends (`events_left`).
//! `value` takes a value and the end of its element at once (`TakesValue`), `three_values` those of a sequence of three of few bits
//! (`TakesSequence`), and `optional_values` those of one of which the second may be absent (`TakesOptional`), or nothing at all. Where the
//! places keep the sequences, each takes what stands in a window (`HoldsThree`, `HoldsTwoOrThree`).
//! `EventWriter`: `offers` tells exactly which event may come next, and `try_put` looks it up once and says so itself; the events put are
//! written as the one encoding of their tree (`IsWritten`), `Full` exactly where the next has no room, with the bits of all that was put
//! and of it (`IsNeeded`), answered again; `finish` tells how many bytes of the lent room hold it. `put_child`, `put_three`, `put_optional`,
//! `put_start` and `put_end` put several events as one word, or nothing: only where no such element is offered, where its bits are too many for
//! a word, or where fewer than 8 bytes are left.
#![tactic(auto)]

mod child;
mod inside;
mod needed;
mod offer;
mod open;
mod optional;
mod putting;
mod reader;
mod sequence;
mod short;
mod step;
mod value;
mod word;
mod writer;

pub use child::{NamedValue, OptionalChildren, ThreeChildren};
pub use exi_bits::Full;
pub use exi_writing::exi_documents;
pub use exi_writing::exi_documents::{Refusal, RefusalCause};
pub use exi_writing::exi_values::{Event, Table, Value};
pub use optional::OptionalValues;
pub use reader::EventReader;
pub use sequence::ThreeValues;
pub use short::short_of;
pub use writer::{EventWriter, NotPut};
