//! The machine of a car (ISO 15118-2:2014, sections 7.10.1 and 8.7; DIN SPEC 70121:2014): what it keeps of what it heard and did, and what
//! it does next. It takes all of its memory when it is made.
//!
//! It never sees a wire or a codec. It is told what is heard (`hear`), decides what to do about it (`decide`), says what it does
//! first (`first`) and is told how that went (`did`), and once nothing of that is left, says which payload it wants to read
//! (`wanted`) and is told what that is (`read`). Contracts see a car as the state of the definitions
//! (`car_spec/specs/States.antt`).
//!
//! Proved: `Car`: a car in memory that is taken once; each call is one equality of the definitions of a car (`make` is `fresh`, `hear` is
//! `hearing`, `decide` is `decided`, `wanted`, `read`, `first`, `did` is `acted`, `next_due` is `until`, ..); `law_of_words`,
//! `law_of_acts`: each word and each act leaves less to do, so a hearing comes to its end.
#![tactic(auto)]

mod acting;
mod agenda;
mod car;
mod deciding;
mod event;
mod judging;
pub mod law;
mod living;
mod slot;

pub use agenda::{Spoken, Todo};
pub use car::Car;
pub use event::{CarEvent, Done, Judged};
pub use law::{law_of_acts, law_of_rest, law_of_words};
pub use slot::Wanted;
pub use std::alloc::AllocError as NoMemory;
