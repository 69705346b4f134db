//! What whoever judges a record keeps of the session of a post and of its charger (ISO 15118-2:2014, 8.7; IEC 61851-1; IEC 61851-23): its moments,
//! whether a reply waits, and what the charger told last.
//!
//! Proved: behind each entry the values are those that `post_spec` reads off the whole past (`SessionValues::behind`); `facts` gives what a word is
//! judged by, and `reached` the deadline that is reached, exactly where one is.
#![tactic(auto)]

mod values;

pub use values::{Arrival, Moments, SessionValues};
