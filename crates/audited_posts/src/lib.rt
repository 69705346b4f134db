//! One post of a foreign trace as it is audited (ISO 15118-2:2014, 7.8.3, 8.7 and 8.8; IEC 61851-1 and IEC 61851-23): all that is kept of it, and the
//! stream of its session.
//!
//! Proved: behind each entry of a trace (`AuditedPost::behind`) it is that of the longer trace and of the steps that `told_pasts` reads off it, where it is
//! told which watts the word of the entry is shown. What the entry was about it finds by itself, and whether a reply writes the watts that the post was told.
//! `AuditedPost::fails` tells whether a check fails at the entry for this post, where it is told what no post keeps of it (`Place`).
#![tactic(auto)]

mod checks;
mod posts;

pub use checks::Place;
pub use posts::{AuditedPost, Passed};
