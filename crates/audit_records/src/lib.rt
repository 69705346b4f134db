//! What is told of an entry of a foreign trace, off the stream of the post that it is about (ISO 15118-2:2014, 7.8.3 and 8.8.4).
//!
//! Proved: `next_word` is the word that comes next, as `audit_course` takes it, `judged_at_reply` the word that was judged for bytes that were sent,
//! `judged_at_order` the one for an order, and `answer_in` what bytes say.
#![tactic(auto)]

mod answers;
mod orders;
mod words;

pub use answers::{Answer, answer_in};
pub use orders::judged_at_order;
pub use words::{judged_at_reply, next_word};
