//! The posts of a site in memory: what each of them hears, how they share the site's watts, and what each of them does next, with codecs of
//! any kind (ISO 15118-2:2014, sections 8.7 and 8.8).
//!
//! Proved: `hear_all`, `until`, `share`, `fill`: what each post of a site hears, until when the site waits, the watts that a post is shown,
//! and the word that it reads, as the definitions say, for any codecs.
#![tactic(auto)]

mod causes;
mod filling;
mod hearing;
mod place;
mod report;
mod sharing;

pub use causes::CauseSet;
pub use filling::fill;
pub use hearing::{hear_all, until};
pub use place::Place;
pub use report::PostReport;
pub use sharing::share;
