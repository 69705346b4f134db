//! What whoever judges a record keeps of the stream of a session (ISO 15118-2:2014, 7.8.3): the first of its words that has no reply, and the bytes
//! that are left behind it. Its memory is taken once, when it is made.
//!
//! Proved: behind each step of a post they are those that `told_pasts` reads off all its steps (`ToldStream::heard`, `ordered`, `answered`, `ended`,
//! `sent`), for any codecs that judge each payload in one way and in some way (`ToldReader`).
#![tactic(auto)]

mod reader;
mod streams;

pub use reader::{ToldReader, ToldWatts, ToldWord};
pub use std::alloc::AllocError as NoMemory;
pub use streams::{NextWord, Speech, ToldStream};
