//! One value of a datatype is taken from a payload, or refused exactly (W3C EXI 1.0, Second Edition, 7): numbers, and values with the
//! string table.
//!
//! No call takes memory. A refusal has the bit of the first item that can't be taken.
//!
//! Proved: `PayloadReader::take_value` takes exactly the values of a datatype (`SpellsValue`), with the string table, or answers the exact
//! refusal (`RefusesValue`); `short_value` takes such a value out of a window, and each of at most 25 bits that it holds as a whole.
#![tactic(auto)]

mod items;
mod reader;
mod short;
mod texts;

pub use exi_bits::BitWindow;
pub use exi_values;
pub use items::index_width;
pub use reader::PayloadReader;
pub use short::{ShortValue, short_value};
