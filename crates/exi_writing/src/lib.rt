//! A value is written behind what a pen has written (W3C EXI 1.0, Second Edition, 7), with the string table.
//!
//! No call takes memory.
//!
//! Proved: `put_value` writes the one spelling of a value that is written (`WritesValue`), a hit in the string table before the text
//! itself; `Full` exactly where it has no room, with the bits of all that was written and of the whole value; `value_bits` tells how many
//! bits it writes.
#![tactic(auto)]

mod items;
mod needed;
mod source;
mod texts;
mod value;

pub use exi_reading;
pub use exi_reading::exi_values;
pub use exi_reading::exi_values::exi_documents;
pub use needed::value_bits;
pub use value::put_value;
