//! What whoever judges a record keeps of how far the words of a session have led it (ISO 15118-2:2014, 8.8.3 and 8.8.4; DIN SPEC 70121:2014): its
//! stage, the watts that it asks for and those that stay allowed, and what is kept of paused sessions and of renegotiations.
//!
//! Proved: behind each step of a post the values are those that `told_pasts` reads off all its steps (`CourseValues::heard`, `read`, `sent`,
//! `ended`), where words are judged by the table of `audit_rows`; and off them whether a cause comes with a step (`comes_heard`, `comes_driven`,
//! `comes_sent`), where it is told which word comes next, and whether the session has reached its deadline (`CourseValues::is_due`);
//! and for how many watts a word is shown a share of what the site has (`CourseValues::asks`).
#![tactic(auto)]

mod asking;
mod coming;
mod course;
mod judging;
mod words;

pub use coming::{Stood, comes_driven, comes_heard, comes_sent, idle_acts};
pub use course::{CourseValues, TalkValues};
pub use words::{NextWord, Saying};
