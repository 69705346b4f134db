//! The row of a session (ISO 15118-2:2014, 8.8.4; DIN SPEC 70121:2014; IEC 61851-23): each row is a type of its own that an accepted request
//! uses up, so a row can't be left but by what it leads to. A request is judged once; what is answered, ordered and kept are the rules of a
//! session (`session_rules`).
//!
//! Proved: `Row`: the row, the facts, the order, the reply and the end of `step` are those of `session_rules`. The order to close comes by
//! spending a `CloseRight` alone, so with the pilot at C or D, and in DC with a valid isolation and a pre-charge within 20.0 V.
#![tactic(auto)]

mod ac;
mod carried;
mod dc;
mod kind;
mod row;
mod setup;
mod step;

pub use carried::Place;
pub use row::Row;
pub use step::Ruled;
