//! What whoever judges a record keeps of a post to tell whether an order to open is owed to it (ISO 15118-2:2014, 8.7 and 8.8; IEC 61851-1 and
//! IEC 61851-23), and the third check of a foreign trace off it: what ends a session opens a live contactor first of all.
//!
//! Proved: behind each step the values are those that `told_pasts` reads off all steps, where it is told of each whether a cause comes with it
//! (`CauseValues::heard`, `drove`, `answered`, `ended`, `sent`); `passes_cause` answers exactly where the third check fails at a post.
#![tactic(auto)]

mod values;

pub use values::CauseValues;
