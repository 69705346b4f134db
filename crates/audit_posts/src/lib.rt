//! All that whoever judges a record keeps of a post (ISO 15118-2:2014, 8.7 and 8.8; IEC 61851-1 and IEC 61851-23): its session and its charger, its
//! contactor, the words that lead to a closed one, causes, the course of its session, and the watts that its last reply spelled.
//!
//! Proved: behind each entry of a trace (`KeptPost::behind`) what is kept of a post is what `told_pasts` reads off all its steps, where it is told which
//! word was judged for it, what was said, and which word comes next.
#![tactic(auto)]

mod stepping;
mod values;

pub use stepping::About;
pub use values::KeptPost;
