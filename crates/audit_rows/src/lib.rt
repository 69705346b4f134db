//! The verdict on a request, and the row behind it, read off a table over plain values (ISO 15118-2:2014, 8.8.3 and 8.8.4; DIN SPEC
//! 70121:2014). The text of the rules is its own, beside that of `session_rules` by which a station goes; the definitions are the same.
//!
//! Proved: for every row in which a request may come, values, plan and request, `judge` gives the code of the verdict that `session_rules`
//! defines, and the number of the row behind it; so does `judge_in` in any row, and `Judged::row_behind` gives that row.
#![tactic(auto)]

mod codes;
mod judging;
mod rows;

pub use judging::{Judged, PostValues, judge, judge_in};
