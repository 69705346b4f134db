//! Scans the text of a tree of a schema's dialect, event by event (own).
//!
//! Inside an element of a kind stand attributes and then elements that the kind declares and takes, in any order and number, and each value
//! has the form of its datatype. Of two declarations of one name inside one kind the first alone is taken.
//!
//! Proved: `DialectScanner`: the events of a text of a schema's dialect, as far as kinds and forms of values decide (`Says`), or its one
//! fault (`IsFault`: the longest front that begins a text of the dialect); `one_list`: a text says one list of events.
#![tactic(auto)]

mod elements;
mod kinds;
pub mod laws;
mod names;
mod phase;
mod said;
mod scanner;
mod step;
mod take;

pub use said::Said;
pub use scanner::DialectScanner;
pub use value_text::ScanFault;
