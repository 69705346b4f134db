//! The machine of a post (ISO 15118-2:2014, section 8.7 and 8.8; DIN SPEC 70121:2014): what it keeps of what it heard and did, and what it
//! does next. It takes all of its memory when it is made.
//!
//! It never sees a wire, a codec or another post. It is told what is heard (`hear`), decides what to do about it
//! (`decide`), asks for the word that it wants to read (`wanted`) and is told what that is (`read`), says what it does
//! first (`first`) and is told how that went (`did`). Contracts see a post as the state of the definitions
//! (`station_spec/specs/States.antt`).
//!
//! Proved: `Post`: the machine of a post in memory that is taken once; each call is one equality of the definitions (`make` is `fresh`,
//! `hear` is `hearing`, `decide` is `decided`, `wanted`, `read`, `first`, `did` is `acted`, `next_due`, ..); `law_of_rest`, `law_of_words`.
#![tactic(auto)]

mod acting;
mod agenda;
mod deciding;
mod event;
mod judging;
pub mod law;
mod post;
mod ruling;
mod slot;

pub use agenda::{Spoken, Todo};
pub use event::{Done, Judged, PostEvent};
pub use law::{law_of_rest, law_of_words};
pub use post::Post;
pub use slot::Wanted;
pub use std::alloc::AllocError as NoMemory;
