//! How a site of posts answers a hearing: all that its posts have to do, on its wire and in its trace; and the orders that close a run.
//!
//! Proved: `answer_all`: for any codecs and any wire, what the posts of a site do in a hearing carries a run to a run, and the trace has
//! the line of each entry right behind its call; `close_unwritten`: the orders that close a run whose trace could not be written.
#![tactic(auto)]

mod closing;
mod turning;

pub use closing::close_unwritten;
pub use turning::answer_all;
